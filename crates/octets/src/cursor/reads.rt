// What a cursor reads.
ghost use Rattle.std.specs.Prelude.{◌≡◌, ◌<◌, ◌≤◌, [], Decides, IfOk, MatchResult};
ghost use Rattle.octets.specs.declared.fault.Fault.TheVariants.{Form};
ghost use Rattle.octets.specs.Parse as parse;
ghost use Rattle.octets.specs.Readers.{told, rest};

use super::Cursor;
use crate::fault::Fault;

impl<'a> Cursor<'a> {
    pub fn new(bytes: &'a [u8]) -> Cursor<'a>
        ensures { rest result ≡ bytes.now }
    {
        Cursor { bytes }
    }

    pub fn is_done(&self) -> bool
        ensures { Decides result (rest self.now ≡ []) }
    {
        self.bytes.is_empty()
    }

    // The bytes that are left to read.
    pub fn left(&self) -> &'a [u8]
        ensures { result.now ≡ rest self.now }
    {
        self.bytes
    }

    // Nothing may be left.
    pub fn end(&self) -> Result<(), Fault>
        ensures { told result [] ≡ parse.ended tt (rest self.now) }
    {
        if self.is_done() {
            Ok(())
        } else {
            Err(Fault::Form)
        }
    }

    pub fn byte(&mut self) -> Result<u8, Fault>
        ensures { told result (rest self.new) ≡ parse.byte (rest self.old) }
    {
        let [b, rest @ ..] = self.bytes else {
            return Err(Fault::Form);
        };
        self.bytes = rest;
        Ok(*b)
    }

    // Two bytes, the high one first.
    pub fn word(&mut self) -> Result<u16, Fault>
        ensures { told result (rest self.new) ≡ parse.word (rest self.old) }
    {
        let a = self.byte()?;
        let b = self.byte()?;
        Ok(u16::from_be_bytes([a, b]))
    }

    // The kind that a message begins with, where it has to be this one.
    pub fn kind(&mut self, wanted: u8) -> Result<u8, Fault>
        ensures { told result (rest self.new) ≡ parse.kind wanted (rest self.old) }
    {
        let k = self.byte()?;
        if k != wanted {
            return Err(Fault::Form);
        }
        Ok(k)
    }

    // A number from low to high.
    pub fn between(&mut self, low: u8, high: u8) -> Result<u8, Fault>
        ensures value { told result (rest self.new) ≡ parse.between low high (rest self.old) }
        ensures bounds { IfOk result (λ x. (low ≤ x) × (x ≤ high)) }
    {
        let x = self.byte()?;
        if x < low || x > high {
            return Err(Fault::Range);
        }
        Ok(x)
    }

    // A number below n: a field, a switch, a port, a count of hops.
    pub fn below(&mut self, n: u8) -> Result<u8, Fault>
        ensures value { told result (rest self.new) ≡ parse.below n (rest self.old) }
        ensures bound { IfOk result (λ x. x < n) }
    {
        let x = self.byte()?;
        if x >= n {
            return Err(Fault::Range);
        }
        Ok(x)
    }
}
