//! The steps that a path with names says.

ghost use Rattle.std.specs.Prelude.{◌≡◌, ◌⊎◌, ◌<◌, None, Some, Ok, Err, option_map, if◌then◌else◌, MatchResult};
ghost use Rattle.pb_schema.specs.View.{field_view};
ghost use Rattle.pb_c_paths.specs.Path.{begun, byte_of, ended, high_digit, index_byte, key_byte, low_byte, moved, name_byte, name_ended, named, next_after, number_ended, path_read, read_view, text_byte, escaped_byte, with_byte, with_next, with_step, with_string, stepped};
ghost use Rattle.pb_schema.specs.Names.{continues_word};
ghost use Rattle.pb_c_paths.specs.Reading.{digit_of};
ghost use Rattle.pb_c_paths.specs.declared.unread.Unread.TheVariants.{Memory};

use crate::brackets::{decimal, key_bits, key_kind};
use crate::reading::{Reading, after_name, after_value, digit_of};
use crate::unread::Unread;
use pb_c_message::PlainValue;
use pb_schema::{Field, Kind, MessageId, Pool};
use std::alloc::Global;

/// What has been read of a path.
#[derive(Drop)]
pub struct ReadPath {
    /// What comes next.
    pub reading: Reading,
    /// The bytes of the name, the digits or the string that is being read.
    pub word: Vec<u8>,
    /// The steps. A string has its index among the strings.
    pub steps: Vec<PlainValue>,
    /// How many bytes each string has.
    pub lengths: Vec<usize>,
    /// The strings, one after another.
    pub strings: Vec<u8>,
}

/// The field of a name in a message type.
fn named<'p>(pool: &'p Pool, message: MessageId, name: &[u8]) -> Option<&'p Field>
    ensures { option_map (λ f. field_view f.now) result ≡ named pool.now message.0 name.now }
{
    if message.0 >= pool.messages().len() {
        return None;
    }
    match std::str::from_utf8(name) {
        Ok(name) => pool.field_by_name(message, name),
        Err(_) => None,
    }
}

/// What comes after a field, from this byte on or at the end of the path.
fn next_after(byte: Option<u8>, field: &Field) -> Option<Reading>
    ensures { result ≡ next_after byte (field_view field.now) }
{
    match byte {
        Some(byte) => after_name(field.shape, field.kind, byte),
        None => Some(Reading::After(field.kind)),
    }
}

/// A reading, if it may be so.
fn where_byte(may: bool, reading: Reading) -> Option<Reading>
    ensures { result ≡ (if may then Some reading else None) }
{
    if may { Some(reading) } else { None }
}

/// A letter, a digit or `_`.
fn continues_word(byte: u8) -> bool
    ensures { result ≡ continues_word byte }
{
    byte.is_ascii_alphabetic() || byte == 95 || byte.is_ascii_digit()
}

fn high_digit(kind: Kind, digit: Option<u8>) -> Option<Reading>
    ensures { result ≡ high_digit kind digit }
{
    match digit {
        Some(digit) => Some(Reading::Low(kind, digit)),
        None => None,
    }
}

/// The byte of two digits.
fn byte_of(high: u8, low: u8) -> u8
    ensures { result ≡ byte_of high low }
{
    ((u32::from(high) * 16 + u32::from(low)) % 256) as u8
}

impl ReadPath {
    fn add_byte(&mut self, reading: Reading, byte: u8) -> Result<(), Unread>
        ensures { MatchResult result
            (λ _. read_view self.new ≡ with_byte (read_view self.old) reading byte) (λ e. e ≡ Memory) }
    {
        self.word.push(byte)?;
        self.reading = reading;
        Ok(())
    }

    fn add_step(&mut self, kind: u32, number: u64, reading: Reading) -> Result<(), Unread>
        ensures { MatchResult result
            (λ _. read_view self.new
            ≡ with_step (read_view self.old) (record { kind = kind; number = number }) reading)
            (λ e. e ≡ Memory) }
    {
        self.steps.push(PlainValue { kind, number })?;
        self.word.clear();
        self.reading = reading;
        Ok(())
    }

    fn add_string(&mut self, reading: Reading) -> Result<(), Unread>
        ensures { MatchResult result
            (λ _. read_view self.new ≡ with_string (read_view self.old) reading) (λ e. e ≡ Memory) }
    {
        self.steps.push(PlainValue {
            kind: 9,
            number: self.lengths.len() as u64,
        })?;
        self.lengths.push(self.word.len())?;
        self.strings.extend_from_slice(&self.word)?;
        self.word.clear();
        self.reading = reading;
        Ok(())
    }

    /// It goes on like this, if it may.
    fn moves(&mut self, next: Option<Reading>, at: usize) -> Result<(), Unread>
        ensures { MatchResult result
            (λ _. moved at (read_view self.old) next ≡ Ok (read_view self.new))
            (λ e. moved at (read_view self.old) next ≡ Err e) }
    {
        let Some(next) = next else {
            return Err(Unread::NoPath(at));
        };
        self.reading = next;
        Ok(())
    }

    /// Where the word that is being read begins.
    fn begun(&self, at: usize) -> usize
        ensures { result ≡ begun at (read_view self.now) }
    {
        at.saturating_sub(self.word.len())
    }

    /// A name ends, before this byte or at the end of the path.
    fn end_name(
        &mut self,
        pool: &Pool,
        message: MessageId,
        at: usize,
        byte: Option<u8>,
    ) -> Result<(), Unread>
        ensures { MatchResult result
            (λ _. name_ended at (read_view self.old) byte
            (named pool.now message.0 self.old.word.items) ≡ Ok (read_view self.new))
            (λ e. (e ≡ Memory) ⊎ (name_ended at (read_view self.old) byte
            (named pool.now message.0 self.old.word.items) ≡ Err e)) }
    {
        let Some(field) = named(pool, message, &self.word) else {
            return Err(Unread::NoField(self.begun(at)));
        };
        let Some(next) = next_after(byte, field) else {
            return Err(Unread::NoPath(at));
        };
        self.add_step(21, u64::from(field.number), next)?;
        Ok(())
    }

    /// Digits end, or a word.
    fn end_number(
        &mut self,
        at: usize,
        kind: u32,
        number: Option<u64>,
        next: Reading,
    ) -> Result<(), Unread>
        ensures { MatchResult result
            (λ _. number_ended at (read_view self.old) kind number next ≡ Ok (read_view self.new))
            (λ e. (e ≡ Memory)
            ⊎ (number_ended at (read_view self.old) kind number next ≡ Err e)) }
    {
        let Some(number) = number else {
            return Err(Unread::NoPath(self.begun(at)));
        };
        self.add_step(kind, number, next)?;
        Ok(())
    }

    fn name_byte(
        &mut self,
        pool: &Pool,
        message: MessageId,
        at: usize,
        byte: u8,
    ) -> Result<(), Unread>
        ensures { MatchResult result
            (λ _. name_byte pool.now message at (read_view self.old) byte
            ≡ Ok (read_view self.new))
            (λ e. (e ≡ Memory)
            ⊎ (name_byte pool.now message at (read_view self.old) byte ≡ Err e)) }
    {
        if !continues_word(byte) {
            self.end_name(pool, message, at, Some(byte))?;
            return Ok(());
        }
        let reading = self.reading;
        self.add_byte(reading, byte)?;
        Ok(())
    }

    fn index_byte(&mut self, kind: Kind, at: usize, byte: u8) -> Result<(), Unread>
        ensures { MatchResult result
            (λ _. index_byte kind at (read_view self.old) byte ≡ Ok (read_view self.new))
            (λ e. (e ≡ Memory) ⊎ (index_byte kind at (read_view self.old) byte ≡ Err e)) }
    {
        if byte == 93 {
            let number = decimal(&self.word);
            self.end_number(at, 22, number, Reading::After(kind))?;
            return Ok(());
        }
        let reading = self.reading;
        self.add_byte(reading, byte)?;
        Ok(())
    }

    fn key_byte(&mut self, key: Kind, kind: Kind, at: usize, byte: u8) -> Result<(), Unread>
        ensures { MatchResult result
            (λ _. key_byte key kind at (read_view self.old) byte ≡ Ok (read_view self.new))
            (λ e. (e ≡ Memory) ⊎ (key_byte key kind at (read_view self.old) byte ≡ Err e)) }
    {
        if byte == 93 {
            let number = key_bits(key, &self.word);
            self.end_number(at, key_kind(key), number, Reading::After(kind))?;
            return Ok(());
        }
        let reading = self.reading;
        self.add_byte(reading, byte)?;
        Ok(())
    }

    fn text_byte(&mut self, kind: Kind, byte: u8) -> Result<(), Unread>
        ensures { MatchResult result
            (λ _. read_view self.new ≡ text_byte kind (read_view self.old) byte)
            (λ e. e ≡ Memory) }
    {
        if byte == 34 {
            self.add_string(Reading::Closing(kind))?;
        } else if byte == 92 {
            self.reading = Reading::Escape(kind);
        } else {
            self.add_byte(self.reading, byte)?;
        }
        Ok(())
    }

    fn escaped_byte(&mut self, kind: Kind, at: usize, byte: u8) -> Result<(), Unread>
        ensures { MatchResult result
            (λ _. escaped_byte kind at (read_view self.old) byte ≡ Ok (read_view self.new))
            (λ e. (e ≡ Memory) ⊎ (escaped_byte kind at (read_view self.old) byte ≡ Err e)) }
    {
        if byte == 34 || byte == 92 {
            self.add_byte(Reading::Text(kind), byte)?;
            return Ok(());
        }
        if byte != 120 {
            return Err(Unread::NoPath(at));
        }
        self.reading = Reading::High(kind);
        Ok(())
    }

    fn low_byte(&mut self, kind: Kind, high: u8, at: usize, byte: u8) -> Result<(), Unread>
        ensures { MatchResult result
            (λ _. low_byte kind high at (read_view self.old) (digit_of byte)
            ≡ Ok (read_view self.new))
            (λ e. (e ≡ Memory)
            ⊎ (low_byte kind high at (read_view self.old) (digit_of byte) ≡ Err e)) }
    {
        let Some(low) = digit_of(byte) else {
            return Err(Unread::NoPath(at));
        };
        self.add_byte(Reading::Text(kind), byte_of(high, low))?;
        Ok(())
    }

    /// Reads one byte more of a path.
    fn add(&mut self, pool: &Pool, at: usize, byte: u8) -> Result<(), Unread>
        ensures { MatchResult result
            (λ _. with_next pool.now at (read_view self.old) byte ≡ Ok (read_view self.new))
            (λ e. (e ≡ Memory) ⊎ (with_next pool.now at (read_view self.old) byte ≡ Err e)) }
    {
        match self.reading {
            Reading::Name(message) => self.name_byte(pool, message, at, byte),
            Reading::Index(kind) => self.index_byte(kind, at, byte),
            Reading::Key(key, kind) => self.key_byte(key, kind, at, byte),
            Reading::Quote(kind) => self.moves(where_byte(byte == 34, Reading::Text(kind)), at),
            Reading::Text(kind) => self.text_byte(kind, byte),
            Reading::Escape(kind) => self.escaped_byte(kind, at, byte),
            Reading::High(kind) => self.moves(high_digit(kind, digit_of(byte)), at),
            Reading::Low(kind, high) => self.low_byte(kind, high, at, byte),
            Reading::Closing(kind) => self.moves(where_byte(byte == 93, Reading::After(kind)), at),
            Reading::After(kind) => self.moves(after_value(kind, byte), at),
        }
    }

    /// The path ends. The empty one is the message itself.
    fn end(&mut self, pool: &Pool, at: usize) -> Result<(), Unread>
        ensures { MatchResult result
            (λ _. ended pool.now at (read_view self.old) ≡ Ok (read_view self.new))
            (λ e. (e ≡ Memory) ⊎ (ended pool.now at (read_view self.old) ≡ Err e)) }
    {
        if at == 0 {
            return Ok(());
        }
        match self.reading {
            Reading::Name(message) => self.end_name(pool, message, at, None),
            Reading::After(_) => Ok(()),
            _ => Err(Unread::NoPath(at)),
        }
    }
}

/// The steps that a path says, from a message type of the pool on.
pub fn read_path(
    alloc: Global,
    pool: &Pool,
    message_type: usize,
    path: &[u8],
) -> Result<ReadPath, Unread>
    ensures { MatchResult result
        (λ r. path_read pool.now message_type path.now ≡ Ok (read_view r))
        (λ e. (e ≡ Memory) ⊎ (path_read pool.now message_type path.now ≡ Err e)) }
{
    let mut read = ReadPath {
        reading: Reading::Name(MessageId(message_type)),
        word: Vec::new(alloc),
        steps: Vec::new(alloc),
        lengths: Vec::new(alloc),
        strings: Vec::new(alloc),
    };
    for at in 0..path.len() {
        read.add(pool, at, path[at])?;
    }
    read.end(pool, path.len())?;
    Ok(read)
}
