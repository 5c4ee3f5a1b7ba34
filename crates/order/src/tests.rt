ghost use Rattle.std.specs.Prelude.{◌*◌, ◌<◌, nat_lt};
ghost use Rattle.order.specs.Fractions.{below_one_way, below_chain};

use crate::{TotalOrder, least};

/// A fraction, compared exactly.
#[derive(Clone, Copy)]
struct Fraction {
    top: u8,
    bottom: u8,
    ghost positive: { 0 < bottom },
}

impl TotalOrder for Fraction {
    ghost before = { λ x y. nat_lt (x.top * y.bottom) (y.top * x.bottom) };

    ghost ranks = { record {
      one_way = λ x y h. below_one_way x.top x.bottom y.top y.bottom h;
      chain = λ x y z h k. below_chain x.top x.bottom y.top y.bottom z.top z.bottom y.positive h k;
    } };

    // By hand, and no derive: fractions are compared by their cross products, and those that tie need not be equal.
    fn precedes(&self, other: &Fraction) -> bool {
        u16::from(self.top) * u16::from(other.bottom)
            < u16::from(other.top) * u16::from(self.bottom)
    }
}

#[test]
fn least_fraction(rt: HostRuntime) {
    let fractions = [
        Fraction { top: 3, bottom: 4 },
        Fraction { top: 2, bottom: 6 },
        Fraction {
            top: 254,
            bottom: 255,
        },
        Fraction { top: 1, bottom: 3 },
    ];
    assert_eq!(rt; least(&fractions), Some(1));
    assert_eq!(rt; least(&fractions[2..]), Some(1));
    assert_eq!(rt; least(&fractions[..1]), Some(0));
    assert_eq!(rt; least(&fractions[..0]), None);
}
