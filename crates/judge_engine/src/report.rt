//! The report of a run, as bytes.
ghost use Rattle.std.specs.Prelude.{◌≡◌, ℕ, List};

use std::marker::Model;

/// A whole report. Contracts see the list of its bytes.
pub struct Report {
    bytes: Vec<u8>,
}

impl Drop for Report {
    fn drop(self) {
        let Self { bytes: _ } = self;
    }
}

impl Model for Report {
    ghost Value = { List ℕ };

    ghost view = { λ r. r.bytes.items };
}

impl Report {
    /// The report of these bytes. Takes no memory.
    pub fn from_bytes(bytes: Vec<u8>) -> Self
        ensures { result ≡ bytes.items }
    {
        Report { bytes }
    }

    /// The bytes of the report.
    pub fn bytes(&self) -> &[u8]
        ensures { result.now ≡ self.now }
    {
        self.bytes.as_slice()
    }
}
