//! What an error-free reference is: it names the flow whose turn it would be on a perfect channel. It sees flows enter
//! and leave, and never whether a radio path is clean.

#![tactic(auto)]

ghost use Rattle.std.specs.Prelude.{◌≡◌};
ghost use Rattle.reference.specs.Meaning.{Meaning, Lawful, told};

/// A reference over 1 to 16 flows. Its meaning is said by what it holds and by laws; code is generic over it, and every
/// implementation shows all of it. The questions take `&self` and alter nothing.
pub trait Reference {
    /// The words in which it is spoken of.
    ghost meaning: { Meaning };

    /// What a value holds.
    ghost held: { Self → meaning.Held };

    /// The number of flows, 1 to 16.
    fn flow_count(&self) -> u8
        ensures { result ≡ meaning.flows (held self.now) };

    /// A flow's weight, at least 1; none for a number outside the table.
    fn weight(&self, flow: u8) -> Option<u32>
        ensures { result ≡ told meaning (held self.now) flow meaning.weight };

    /// How far a due flow's arrears may rise, in wholes; none for a number outside the table.
    fn allowance(&self, flow: u8) -> Option<u32>
        ensures { result ≡ told meaning (held self.now) flow meaning.allowance };

    /// The total weight, at least the sum of the weights.
    fn total_weight(&self) -> u32
        ensures { result ≡ meaning.total (held self.now) };

    /// Whether a flow is due; a number outside the table never is.
    fn is_due(&self, flow: u8) -> bool
        ensures { result ≡ meaning.due (held self.now) flow };

    /// Makes a flow due. A flow that is due, or a number outside the table, alters nothing.
    fn enter(&mut self, flow: u8)
        ensures { held self.new ≡ meaning.entered (held self.old) flow };

    /// Makes a flow not due. A flow that is not due, or a number outside the table, alters nothing.
    fn leave(&mut self, flow: u8)
        ensures { held self.new ≡ meaning.left (held self.old) flow };

    /// Takes a turn: the flow that it marks, none exactly when no flow is due.
    fn turn(&mut self) -> Option<u8>
        ensures mark { result ≡ meaning.marks (held self.old) }
        ensures after { held self.new ≡ meaning.turned (held self.old) };

    /// These words keep the laws.
    ghost lawful: { Lawful meaning };

    /// Whatever a value holds is a state that the reference can be in.
    ghost sound: { (s : Self) → meaning.Sound (held s) };
}
