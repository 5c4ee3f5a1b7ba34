ghost use Rattle.std.specs.Prelude.{◌≡◌, ◌/◌, ◌≤◌};
ghost use Rattle.reference.specs.Meaning.{whole};

/// The parts that make one whole: the least common multiple of 1 to 16.
pub(crate) const WHOLE: u32 = 720_720;

/// A whole divided by each weight. No weight is 0.
static PARTS: [u32; 17] = [
    0, 720_720, 360_360, 240_240, 180_180, 144_144, 120_120, 102_960, 90_090, 80_080, 72_072,
    65_520, 60_060, 55_440, 51_480, 48_048, 45_045,
];

/// A whole divided by a weight.
// From a table: a turn asks for one for each eligible flow, and a division takes long.
pub(crate) fn part(weight: u8) -> u32
    requires at_least_one { 1 ≤ weight }
    requires at_most_sixteen { weight ≤ 16 }
    ensures { result ≡ whole / weight }
{
    PARTS[usize::from(weight)]
}
