//! What a call answers: how it ended, and a text in the caller's buffer.
ghost use Rattle.std.specs.Prelude.{◌≡◌};
ghost use Rattle.c_values.specs.Handing.{IsHandedOut};

/// The status of a call that made what was asked for.
pub const MADE: u32 = 0;

/// The status of a call whose texts are refused, or whose plans are not all valid if that is asked.
pub const REFUSED: u32 = 1;

/// The status of a call with an unknown number, or with a name that is no UTF-8.
pub const MISUSED: u32 = 2;

/// The status of a call for which memory ran out.
pub const OUT_OF_MEMORY: u32 = 3;

/// How a call ended, and how long its text is.
#[repr(C)]
#[derive(Clone, Copy)]
pub struct Answer {
    /// How the call ended: [`MADE`], [`REFUSED`], [`MISUSED`] or [`OUT_OF_MEMORY`].
    pub status: u32,
    /// The length of the text in bytes. The text is in the buffer if that has room for all of it.
    pub length: usize,
}

/// The answer without a text.
pub fn no_text(status: u32) -> Answer
    ensures { result ≡ record { status = status; length = 0 } }
{
    Answer { status, length: 0 }
}

/// Writes a text to the front of the buffer if there is room for all of it, and answers how long it is.
pub fn hand_out(status: u32, text: &[u8], out: &mut [u8]) -> Answer
    ensures status { result.status ≡ status }
    ensures text { IsHandedOut text.now result.length out.old out.new }
{
    if text.len() <= out.len() {
        let (front, _) = out.split_at_mut(text.len());
        front.copy_from_slice(text);
    }
    Answer {
        status,
        length: text.len(),
    }
}
