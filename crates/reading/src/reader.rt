// A reading of a case file.
ghost use Rattle.std.specs.Prelude.{◌≡◌};

use super::{Access, kinds};
use refusals::Refusal;
use semantics::Sizes;

// The lent bytes, and the byte with which the next access begins.
#[derive(Drop)]
pub struct Reader<'a> {
    pub bytes: &'a [u8],
    pub at: usize,
}

impl<'a> Reader<'a> {
    ghost use Rattle.format.specs.Accesses.{goes_on};
    ghost use Rattle.reading.specs.Contract.{Reads};

    // A reading that goes on from a byte.
    pub fn begin(bytes: &'a [u8], at: usize) -> Reader<'a>
        ensures { (result.bytes ≡ bytes.entry) × (result.at ≡ at) }
    {
        Reader { bytes, at }
    }

    // The next access, for a memory of these sizes; the reader then stands at the byte after it. Where none is found it stays.
    pub fn next(&mut self, z: Sizes) -> Result<Access, Refusal>
        ensures access { Reads self.old.bytes.now self.old.at z.n z.w result }
        ensures goes_on { (self.new.bytes ≡ self.old.bytes) × (self.new.at ≡ goes_on self.old.bytes.now self.old.at z.n z.w) }
    {
        if self.bytes.len() <= self.at {
            return Err(Refusal::EndsEarly);
        }
        let kind = kinds::kind_of(self.bytes[self.at]);
        if !kinds::is_known(kind) {
            return Err(Refusal::UnknownKind);
        }
        let size = kinds::lead(kind) + 2 * kinds::operands(kind, z);
        let next = self.at + 1;
        if self.bytes.len() - next < size {
            return Err(Refusal::EndsEarly);
        }
        self.at = next + size;
        Ok(Access {
            kind,
            port: kinds::port_of(kind, self.bytes[next]),
            from: next + kinds::lead(kind),
        })
    }
}
