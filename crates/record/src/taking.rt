ghost use Rattle.std.specs.Prelude.{◌≡◌, ok_or};
ghost use Rattle.record.specs.Pairs.{taking_number, sender_of, taking_of, charge_number, charge_numbered};
ghost use Rattle.fault.specs.declared.RecordFault.TheVariants.{Field};

use fault::RecordFault;

/// Who sends in a slot, and on what account.
#[derive(Clone, Copy, PartialEq, Eq, Debug)]
pub enum Taking {
    /// Nobody sends.
    Idle,
    /// The marked flow sends.
    Own(u8),
    /// A lagging flow sends, and lags by one less.
    LagRepaid(u8),
    /// A flow sends that leads by one more for it.
    LeadCharged(u8),
    /// A flow sends on no account.
    Free(u8),
}

/// What the marked flow is charged, with its number in a record.
#[derive(Clone, Copy, PartialEq, Eq, Debug)]
pub enum Charge {
    /// No charge. A variant `None` would be taken for that of `Option` in definitions.
    Nothing = 0,
    /// It leads by one less.
    LeadDown = 1,
    /// It lags by one more.
    LagUp = 2,
    /// Its turn is lost.
    Forfeited = 3,
}

impl Taking {
    /// The flow that sends; none where the slot is idle.
    pub fn sender(self) -> Option<u8>
        ensures { result ≡ sender_of self }
    {
        match self {
            Taking::Idle => None,
            Taking::Own(flow)
            | Taking::LagRepaid(flow)
            | Taking::LeadCharged(flow)
            | Taking::Free(flow) => Some(flow),
        }
    }
}

/// The number that stands for the taking in a record, and the sender.
impl From<Taking> for (u8, Option<u8>) {
    ghost from_gives = { λ taking pair. pair ≡ (taking_number taking, sender_of taking) };

    fn from(taking: Taking) -> (u8, Option<u8>) {
        let number = match taking {
            Taking::Idle => 0,
            Taking::Own(_) => 1,
            Taking::LagRepaid(_) => 2,
            Taking::LeadCharged(_) => 3,
            Taking::Free(_) => 4,
        };
        (number, taking.sender())
    }
}

/// The taking that has this number and this sender.
impl TryFrom<(u8, Option<u8>)> for Taking {
    type Error = RecordFault;

    ghost try_from_gives = { λ pair result. result ≡ ok_or (taking_of pair.0 pair.1) Field };

    fn try_from(pair: (u8, Option<u8>)) -> Result<Taking, RecordFault> {
        match pair {
            (0, None) => Ok(Taking::Idle),
            (1, Some(flow)) => Ok(Taking::Own(flow)),
            (2, Some(flow)) => Ok(Taking::LagRepaid(flow)),
            (3, Some(flow)) => Ok(Taking::LeadCharged(flow)),
            (4, Some(flow)) => Ok(Taking::Free(flow)),
            _ => Err(RecordFault::Field),
        }
    }
}

/// The number that stands for the charge in a record.
impl From<Charge> for u8 {
    ghost from_gives = { λ charge number. number ≡ charge_number charge };

    fn from(charge: Charge) -> u8 {
        charge as u8
    }
}

/// The charge that a number stands for.
// The numbers once more: a match on them is plainer than one on the casts of the cases.
impl TryFrom<u8> for Charge {
    type Error = RecordFault;

    ghost try_from_gives = { λ number result. result ≡ ok_or (charge_numbered number) Field };

    fn try_from(number: u8) -> Result<Charge, RecordFault> {
        match number {
            0 => Ok(Charge::Nothing),
            1 => Ok(Charge::LeadDown),
            2 => Ok(Charge::LagUp),
            3 => Ok(Charge::Forfeited),
            _ => Err(RecordFault::Field),
        }
    }
}
