// Reading a table part by part, to its end or its first fault.
ghost use Rattle.std.specs.Prelude.{◌≡◌, ◌+◌, ◌<◌, ◌^◌, length, nat_le, IfOk};
ghost use Rattle.octets.specs.Faults as faults;
ghost use Rattle.octets.specs.Parse as parse;
ghost use Rattle.octets.specs.Readers.{told};
ghost use Rattle.table.specs.Words.{want_words, setting_words, wants_words, out_words, outs_words, rule_words, encode};
ghost use Rattle.tablebytes.specs.Filled.{Gave, Put};
ghost use Rattle.tablebytes.specs.Format as spec;

use super::Filler;
use octets::{Cursor, Fault};

impl<'a, 'o> Filler<'a, 'o> {
    pub(crate) fn new(bytes: &'a [u8], out: &'o mut [u16]) -> Filler<'a, 'o>
        ensures bytes { result.bytes.now ≡ bytes.now }
        ensures count { result.count ≡ 0 }
        ensures out { result.out.now ≡ out.old }
        ensures same { result.out.ghost_name ≡ out.entry.ghost_name }
    {
        Filler {
            bytes,
            out,
            count: 0,
        }
    }

    // The bytes that are left to read.
    pub(crate) fn left(&self) -> &'a [u8]
        ensures { result.now ≡ self.now.bytes.now }
    {
        self.bytes
    }

    // How many words were written.
    pub(crate) fn count(&self) -> usize
        ensures { result ≡ self.now.count }
    {
        self.count
    }

    // Writes a word, if there is a place for it.
    fn put(&mut self, word: u16)
        requires room { self.old.count + 1 + length self.old.bytes.now < 2 ^ 64 }
        ensures bytes { self.new.bytes.now ≡ self.old.bytes.now }
        ensures written { Put word self.old self.new }
    {
        if self.count < self.out.len() {
            self.out[self.count] = word;
        }
        self.count += 1;
    }

    // How many things follow: at most so many, or else it is this fault.
    fn number(&mut self, most: u8, fault: Fault) -> Result<u8, Fault>
        ensures value { told result self.new.bytes.now ≡ parse.tested parse.byte (λ n. nat_le n most) (faults.number fault) self.old.bytes.now }
        ensures written { IfOk result (λ n. Put n self.old self.new) }
    {
        let mut c = Cursor::new(self.bytes);
        let n = c.byte()?;
        if n > most {
            return Err(fault);
        }
        self.bytes = c.left();
        self.put(u16::from(n));
        Ok(n)
    }

    // A field and a value: a want, or a setting.
    fn pair(&mut self) -> Result<(), Fault>
        ensures want { Gave want_words spec.want self.old self.new result }
        ensures setting { Gave setting_words spec.setting self.old self.new result }
    {
        let mut c = Cursor::new(self.bytes);
        let field = c.below(8)?;
        let value = c.word()?;
        self.bytes = c.left();
        self.put(u16::from(field));
        self.put(value);
        Ok(())
    }

    // Pairs behind their number: the wants of a rule, or the settings of an out.
    fn pairs(&mut self) -> Result<(), Fault>
        ensures wants { Gave wants_words spec.wants self.old self.new result }
        ensures out { Gave out_words spec.out self.old self.new result }
    {
        let n = self.number(8, Fault::Range)?;
        for _i in 0..n {
            self.pair()?;
        }
        Ok(())
    }

    // Outs behind their number.
    fn outs(&mut self) -> Result<(), Fault>
        ensures { Gave outs_words spec.outs self.old self.new result }
    {
        let n = self.number(16, Fault::Copies)?;
        for _i in 0..n {
            self.pairs()?;
        }
        Ok(())
    }

    fn rule(&mut self) -> Result<(), Fault>
        ensures { Gave rule_words spec.rule self.old self.new result }
    {
        self.pairs()?;
        self.outs()
    }

    // Rules behind their number.
    pub(crate) fn table(&mut self) -> Result<(), Fault>
        ensures { Gave encode spec.table self.old self.new result }
    {
        let mut c = Cursor::new(self.bytes);
        let n = c.word()?;
        if n > 2048 {
            return Err(Fault::Rules);
        }
        self.bytes = c.left();
        for _i in 0..n {
            self.rule()?;
        }
        Ok(())
    }
}
