// Feeding a file to a running mark: with no table, by a lent table, and by the house key's constant words. Under the house key all three fold, and
// read no table. A part comes as bytes and the used bits of the final one; feeding after an unfinished byte goes on at the next bit. A mark has the
// leading 1, or it is a plain mark: feeding is the same for both, and a mark can be turned into the other kind.
#![tactic(auto)]

ghost use Rattle.std.specs.Prelude.{◌≡◌, ◌++◌, ◌+◌, ◌<◌};
ghost use Rattle.refusals.specs.Refusals.{first_of, mapped};
ghost use Rattle.refusals.specs.Answers.{told};
ghost use Rattle.acceptance.specs.Keys.{polynomial_of, key_tests};
ghost use Rattle.acceptance.specs.Opened.{Opened};
ghost use Rattle.files.specs.Files.{as_part, part_length, fed_mark};
ghost use Rattle.files.specs.PlainMarks.{turned};
ghost use Rattle.mark_tests.specs.MarkTests.{feed_tests};
ghost use Rattle.table_tests.specs.TableTests.{table_tests};
ghost use Rattle.marks.specs.Feeding.{begin_from, begin, feed_bits, feed_table, feed_house};
ghost use Rattle.marks.specs.PlainMarks.{begin_plain, turn_tests, turn};
ghost use Rattle.marks.specs.Answers.{mark_in, running, begun_under, fed, fed_under};

use acceptance::Key;
use files::Mark;
use gf2::Modulus;
use lookups::KeyTable;
use refusals::Refusal;

// A running mark (document 01's term): the state of a fingerprint that is taken as the file is read. The length is in bits. Numbers only.
#[derive(Clone, Copy)]
pub struct Running {
    pub key: Key,
    pub fingerprint: u64,
    pub length: u64,
}

// A refusal, and the running mark as it was handed in.
#[derive(Clone, Copy)]
pub struct RefusedMark {
    pub mark: Running,
    pub refusal: Refusal,
}

impl From<RefusedMark> for Refusal {
    ghost from_gives = { λ e r. r ≡ e.refusal };

    fn from(e: RefusedMark) -> Refusal {
        e.refusal
    }
}

// A running mark with its key opened.
#[derive(Clone, Copy)]
pub struct OpenMark {
    pub p: Modulus,
    pub mark: Running,
    pub ghost opened: { Opened mark.key p },
}

impl OpenMark {
    // The length in bits that feeding a part gives.
    fn judge(self, part: &[u8], used: u32) -> Result<u64, RefusedMark>
        ensures { fed result ≡ first_of (feed_tests (polynomial_of self.mark.key) (mark_in self.mark) (as_part part.now used)) self.mark
            (self.mark.length + part_length (as_part part.now used)) }
    {
        mark_tests::judge(self.p, self.mark.mark(), part, used).map_err(|refusal| self
            .mark
            .refused(refusal))
    }

    // A part fed with no table. Inlined, it need not have the opened mark in memory: a part of 1 byte takes a third less time.
    #[inline]
    fn feed_alone(self, part: &[u8], used: u32) -> Result<Running, RefusedMark>
        ensures { fed result ≡ fed_under self.mark.key (first_of (feed_tests (polynomial_of self.mark.key) (mark_in self.mark) (as_part part.now used))
            (mark_in self.mark) (fed_mark (polynomial_of self.mark.key) (mark_in self.mark) (as_part part.now used))) }
    {
        let length = self.judge(part, used)?;
        let next = feeding::part_alone(self.p, self.mark.fingerprint, part, used);
        Ok(self.mark.with_mark(next, length))
    }

    // A part fed by the lent words: all of them are tested first.
    fn feed_under(self, words: &[u64], part: &[u8], used: u32) -> Result<Running, RefusedMark>
        ensures { fed result ≡ fed_under self.mark.key (first_of (table_tests (polynomial_of self.mark.key) words.now
            ++ feed_tests (polynomial_of self.mark.key) (mark_in self.mark) (as_part part.now used))
            (mark_in self.mark) (fed_mark (polynomial_of self.mark.key) (mark_in self.mark) (as_part part.now used))) }
    {
        let p = self.p;
        table_tests::judge(p, words).map_err(|refusal| self.mark.refused(refusal))?;
        let length = self.judge(part, used)?;
        let table = KeyTable { words, p };
        let looked = feeding::part_by_table(table, self.mark.fingerprint, part, used);
        Ok(self.mark.with_mark(looked, length))
    }

    // The mark turned.
    fn turn(self) -> Result<Running, RefusedMark>
        ensures { fed result ≡ fed_under self.mark.key (first_of (turn_tests (polynomial_of self.mark.key) (mark_in self.mark)) (mark_in self.mark)
            (turned (polynomial_of self.mark.key) (mark_in self.mark))) }
    {
        let m = self.mark;
        if !refusals::bits_fit(m.length) {
            return Err(m.refused(Refusal::TooLong));
        }
        if !gf2::is_residue(self.p, m.fingerprint) {
            return Err(m.refused(Refusal::MarkNotReduced));
        }
        let turned = files::turned_residue(self.p, m.fingerprint, m.length);
        Ok(m.with_mark(turned, m.length))
    }
}

// The mark of the empty file behind a start.
fn begin_from(start: u64, key: Key) -> Result<Running, Refusal>
    requires { start < 2 }
    ensures { told result ≡ begun_under key (begin_from start key) }
{
    keys::test(key)?;
    Ok(Running {
        key,
        fingerprint: start,
        length: 0,
    })
}

impl Running {
    // Its mark, without the key.
    pub fn mark(self) -> Mark
        ensures { result ≡ mark_in self }
    {
        Mark {
            fingerprint: self.fingerprint,
            length: self.length,
        }
    }

    // Its key, copied field by field: its degree and word were just stored apart, and a copy of both at once would wait for that.
    fn key_by_fields(self) -> Key
        ensures { result ≡ self.key }
    {
        Key {
            degree: self.key.degree,
            word: self.key.word,
        }
    }

    // Another mark under its key.
    pub fn with_mark(self, fingerprint: u64, length: u64) -> Running
        ensures { result ≡ running self.key (record { fingerprint = fingerprint; length = length }) }
    {
        Running {
            key: self.key_by_fields(),
            fingerprint,
            length,
        }
    }

    // Its refusal: it goes back as it was handed in.
    pub fn refused(self, refusal: Refusal) -> RefusedMark
        ensures { result ≡ record { refusal = refusal; mark = self } }
    {
        RefusedMark {
            mark: self,
            refusal,
        }
    }

    // The same mark with its key opened. Numbers 1, 2.
    pub fn opened(self) -> Result<OpenMark, RefusedMark>
        ensures { mapped (λ o. o.mark) (fed result) ≡ first_of (key_tests self.key) self self }
    {
        let p = keys::test(self.key_by_fields()).map_err(|refusal| self.refused(refusal))?;
        Ok(OpenMark { p, mark: self })
    }

    // The mark of the empty file under a key. Numbers 1, 2.
    pub fn begin(key: Key) -> Result<Running, Refusal>
        ensures { told result ≡ begun_under key (begin key) }
    {
        begin_from(1, key)
    }

    // The plain mark of the empty file under a key. Numbers 1, 2.
    pub fn begin_plain(key: Key) -> Result<Running, Refusal>
        ensures { told result ≡ begun_under key (begin_plain key) }
    {
        begin_from(0, key)
    }

    // A plain mark turned into a mark with the leading 1, or such a mark into a plain mark: t^n is added, n being the length. Numbers 1, 2, 7, 8.
    pub fn turn(self) -> Result<Running, RefusedMark>
        ensures { fed result ≡ fed_under self.key (turn self.key (mark_in self)) }
    {
        self.opened()?.turn()
    }

    // The mark of what was fed with the part behind it, of whose final byte `used` bits are used. Numbers 1, 2, 7, 8, 19.
    pub fn feed(self, part: &[u8], used: u32) -> Result<Running, RefusedMark>
        ensures { fed result ≡ fed_under self.key (feed_bits self.key (mark_in self) (as_part part.now used)) }
    {
        self.opened()?.feed_alone(part, used)
    }

    // The same by the lent table, all of whose words are tested first. Numbers 1, 2, 5, 6, 7, 8, 19.
    pub fn feed_table(self, words: &[u64], part: &[u8], used: u32) -> Result<Running, RefusedMark>
        ensures { fed result ≡ fed_under self.key (feed_table self.key (mark_in self) words.now (as_part part.now used)) }
    {
        self.opened()?.feed_under(words, part, used)
    }

    // The same by the house key's constant words. Under that key they are right: they are not read, and nothing is tested but the lengths, the
    // mark and the final byte. Under another key they are tested like a lent table. Numbers 1, 2, 6, 7, 8, 19.
    pub fn feed_house(self, part: &[u8], used: u32) -> Result<Running, RefusedMark>
        ensures { fed result ≡ fed_under self.key (feed_house self.key (mark_in self) (as_part part.now used)) }
    {
        let p = Modulus {
            degree: self.key.degree,
            low: self.key.word,
        };
        if house::is_house(p) {
            return OpenMark { p, mark: self }.feed_alone(part, used);
        }
        feed_constant(self, part, used)
    }
}

// A part fed by the house key's constant words, which are copied here alone.
fn feed_constant(m: Running, part: &[u8], used: u32) -> Result<Running, RefusedMark>
    ensures { fed result ≡ fed_under m.key (feed_house m.key (mark_in m) (as_part part.now used)) }
{
    let words = house::words();
    m.feed_table(&words, part, used)
}
