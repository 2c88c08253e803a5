//! How much judges may keep of the steps that they know.
ghost use Rattle.std.specs.Prelude.{◌<◌, ◌^◌};

/// The room is divided as if there were at most this many judges. If there are more, each has as much as with this many.
pub const MOST_JUDGES: u32 = 32;

/// The room for what is learned of steps is divided as if there were at least this many judges, so that a single judge does not take all of it.
const FEWEST_JUDGES: u32 = 4;

/// How many steps all judges keep. Each takes 48 bytes besides its key and its code, and up to 16 for its slots: 16 MiB. With the rooms below, that
/// is 52 MiB.
pub(crate) const ALL_CODES: usize = 262_144;

/// How many numbers the codes of all judges have, of four bytes each: 10 MiB.
pub(crate) const ALL_NUMBERS: usize = 2_621_440;

/// How many instructions the programs of all judges have, of twelve bytes each: 12 MiB. Only steps with conditional effects have a program.
pub(crate) const ALL_INSTRUCTIONS: usize = 1_048_576;

/// How many bytes the keys of all judges have: 10 MiB.
pub(crate) const ALL_KEY_BYTES: usize = 10_485_760;

/// How many cells all judges have for atoms of one object, of four bytes each: 4 MiB.
pub(crate) const ALL_CELLS: usize = 1_048_576;

/// How much one judge may keep.
#[derive(Clone, Copy)]
pub(crate) struct MemoLimits {
    /// How many steps.
    pub(crate) codes: usize,
    /// How many numbers in all codes.
    pub(crate) numbers: usize,
    /// How many instructions in all programs.
    pub(crate) instructions: usize,
    /// How many bytes in all keys.
    pub(crate) key_bytes: usize,
    /// How many cells for atoms of one object.
    pub(crate) cells: usize,
    ghost few_codes: { codes < 2 ^ 32 },
    ghost few_numbers: { numbers < 2 ^ 32 },
    ghost few_instructions: { instructions < 2 ^ 32 },
    ghost few_bytes: { key_bytes < 2 ^ 32 },
}

impl MemoLimits {
    /// What each of `judges` judges may keep.
    pub(crate) fn of_each(judges: u32) -> MemoLimits {
        let cells = ALL_CELLS / judges.clamp(1, MOST_JUDGES) as usize;
        let judges = judges.clamp(FEWEST_JUDGES, MOST_JUDGES) as usize;
        MemoLimits {
            codes: ALL_CODES / judges,
            numbers: ALL_NUMBERS / judges,
            instructions: ALL_INSTRUCTIONS / judges,
            key_bytes: ALL_KEY_BYTES / judges,
            cells,
        }
    }
}
