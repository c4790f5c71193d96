//! The messages of one input, in turn.

use crate::held::read_held;
use crate::reading::read_frame;
use pb_decode::DecodeError;
use pb_input::BufferedInput;
use pb_schema::{MessageId, Pool};
use pb_value::DynamicMessage;
use pb_wire::{Input, Limits};
use std::alloc::Global;
use std::marker::Model;

/// Reads the messages of one input in turn, each after its length. All are of one type.
#[derive(Drop)]
pub struct DelimitedReader<'p, I: Drop> {
    alloc: Global,
    pool: &'p Pool,
    kind: MessageId,
    limits: Limits,
    input: I,
    taken: u64,
    finished: bool,
}

impl<'p, I: Drop> Model for DelimitedReader<'p, I> {
    ghost use Rattle.std.specs.Prelude.{length, ◌<◌};
    ghost use Rattle.pb_stream.specs.Stream.{Stream};

    ghost Value = { Stream I };

    ghost view = { λ r. record { pool = r.pool.now; kind = r.kind.0; limits = r.limits; input = r.input; taken = r.taken; finished = r.finished } };

    ghost invariant = { λ r. r.kind.0 < length r.pool.now.messages };
}

impl<'p, I: Input + Drop> DelimitedReader<'p, I> {
    ghost use Rattle.std.specs.Prelude.{◌≡◌, ◌≢◌, ◌<◌, [], true, false, Some, None, Err, length, IfOk};
    ghost use Rattle.std.specs.Prelude.{IfSome, IfNone, MatchResult, OnOk, OnErr};
    ghost use Rattle.pb_decode.specs.declared.error.DecodeError.TheVariants.{Device, Finished};
    ghost use Rattle.pb_decode.specs.FromDevice.{TellsFailures};
    ghost use Rattle.pb_stream.specs.Answers.{AnswersFrame, TellsFrameFault, AcceptsFrame, RefusesFrameFault};
    ghost use Rattle.pb_stream.specs.Taking.{StaysInFrame, TakesNone, Counts};

    /// A reader that has taken no byte. `message_type` is a type of the pool.
    pub fn new(
        alloc: Global,
        pool: &'p Pool,
        message_type: MessageId,
        input: I,
        limits: Limits,
    ) -> DelimitedReader<'p, I>
        requires { message_type.0 < length pool.now.messages }
        ensures { result ≡ record {
          pool = pool.now;
          kind = message_type.0;
          limits = limits;
          input =
              input;
          taken = 0;
          finished = false;
        } }
    {
        DelimitedReader {
            alloc,
            pool,
            kind: message_type,
            limits,
            input,
            taken: 0,
            finished: false,
        }
    }

    /// The next message, or nothing where nothing is left, as [`read_delimited`] reads it. After nothing a further call
    /// reads again; after a refusal each call answers [`DecodeError::Finished`].
    ///
    /// [`read_delimited`]: crate::read_delimited
    pub fn next(&mut self) -> Result<Option<DynamicMessage<'p>>, DecodeError>
        ensures same { (self.new.pool ≡ self.old.pool) × (self.new.kind ≡ self.old.kind)
            × (self.new.limits ≡ self.old.limits) }
        ensures finished { self.old.finished ≡ true
            → (result ≡ Err Finished) × (self.new ≡ self.old) }
        ensures closes { OnErr result (self.new.finished ≡ true) }
        ensures goes_on { OnOk result (self.new.finished ≡ false) }
        ensures counted { OnOk result
            (Counts self.old.taken self.new.taken (I.left self.old.input) (I.left self.new.input)) }

        ensures of_type { IfOk result
            (λ o. IfSome o (λ m. (m.pool ≡ self.old.pool) × (m.kind ≡ self.old.kind))) }
        ensures end { IfOk result
            (λ o. IfNone o (TakesNone (I.left self.old.input) (I.left self.new.input))) }
        ensures message { AnswersFrame (λ m. m.body) self.old.pool self.old.kind self.old.limits
            (I.left self.old.input) (I.left self.new.input) result }
        ensures fault { self.old.finished ≡ false
            → TellsFrameFault self.old.pool self.old.kind self.old.limits
            (I.left self.old.input) result }

        // Until it has refused, whatever is right is answered, but where memory or the input fails.
        ensures ended { self.old.finished ≡ false → I.left self.old.input ≡ Some []
            → MatchResult result (λ o. o ≡ None) (λ e. e ≡ Device) }
        ensures accepted { self.old.finished ≡ false
            → AcceptsFrame (λ m. m.body) self.old.pool self.old.kind self.old.limits
            (I.left self.old.input) result }
        ensures refused { self.old.finished ≡ false
            → RefusesFrameFault self.old.pool self.old.kind self.old.limits
            (I.left self.old.input) result }

        ensures within { StaysInFrame self.old.limits (I.left self.old.input)
            (I.left self.new.input) }
        ensures failures { TellsFailures result (I.failures self.old.input)
            (I.failures self.new.input) }
        ensures steady { I.is_steady self.old.input ≡ true → result ≢ Err Device }
        ensures stays { I.is_steady self.old.input ≡ true → I.is_steady self.new.input ≡ true }
    {
        if self.finished {
            return Err(DecodeError::Finished);
        }
        match read_frame(
            self.alloc,
            self.pool,
            self.kind,
            &mut self.input,
            self.limits,
        ) {
            Ok(None) => Ok(None),
            Ok(Some(framed)) => {
                self.taken = self.taken.saturating_add(framed.size);
                Ok(Some(framed.message))
            }
            Err(error) => {
                self.finished = true;
                Err(error)
            }
        }
    }

    /// The input, from the byte after those that were taken.
    pub fn into_inner(self) -> I
        ensures { result ≡ self.entry.input }
    {
        self.input
    }

    /// How many bytes were taken by the calls of `next` that refused nothing. The greatest u64 also means more.
    pub fn taken(&self) -> u64
        ensures { result ≡ self.now.taken }
    {
        self.taken
    }
}

impl<'p, I: Drop> DelimitedReader<'p, BufferedInput<I>> {
    ghost use Rattle.std.specs.Prelude.{◌≡◌, ℕ, List, Option, true, false, Some, Err, IfOk, IfErr};
    ghost use Rattle.std.specs.Prelude.{IfSome, IfNone, OnOk, OnErr};
    ghost use Rattle.std.specs.Io.KnownBytes.{prepend_known};
    ghost use Rattle.pb_decode.specs.declared.error.DecodeError.TheVariants.{Memory, Finished};
    ghost use Rattle.pb_stream.specs.Answers.{AnswersFrame, AcceptsFrame};
    ghost use Rattle.pb_stream.specs.Taking.{Counts};

    /// The next message, where the buffer of the input holds all bytes of its frame. Where it does not, or what it holds is no frame of a
    /// message, nothing is taken: `next` reads the input, and reports why a frame is refused. This call does not read the input.
    pub fn next_held(&mut self) -> Result<Option<DynamicMessage<'p>>, DecodeError>
        ensures same { (self.new.pool ≡ self.old.pool) × (self.new.kind ≡ self.old.kind)
            × (self.new.limits ≡ self.old.limits) }
        ensures finished { self.old.finished ≡ true
            → (result ≡ Err Finished) × (self.new ≡ self.old) }
        ensures closes { OnErr result (self.new.finished ≡ true) }
        ensures goes_on { OnOk result (self.new.finished ≡ false) }
        ensures none { IfOk result (λ o. IfNone o (self.new ≡ self.old)) }

        // Whatever follows the bytes that are held.
        ensures counted { (more : Option (List ℕ)) → OnOk result
            (Counts self.old.taken self.new.taken
            (prepend_known self.old.input.held more)
            (prepend_known self.new.input.held more)) }
        ensures message { (more : Option (List ℕ))
            → AnswersFrame (λ m. m.body) self.old.pool self.old.kind self.old.limits
            (prepend_known self.old.input.held more)
            (prepend_known self.new.input.held more) result }

        ensures of_type { IfOk result
            (λ o. IfSome o (λ m. (m.pool ≡ self.old.pool) × (m.kind ≡ self.old.kind))) }
        ensures accepted { self.old.finished ≡ false
            → AcceptsFrame (λ m. m.body) self.old.pool self.old.kind self.old.limits
            (Some self.old.input.held) result }
        ensures memory { self.old.finished ≡ false → IfErr result (λ e. e ≡ Memory) }
        ensures unread { self.new.input.input ≡ self.old.input.input }
    {
        if self.finished {
            return Err(DecodeError::Finished);
        }
        match read_held(
            self.alloc,
            self.pool,
            self.kind,
            self.input.held(),
            self.limits,
        ) {
            Ok(None) => Ok(None),
            Ok(Some(framed)) => {
                self.input.advance(framed.size as usize);
                self.taken = self.taken.saturating_add(framed.size);
                Ok(Some(framed.message))
            }
            Err(error) => {
                self.finished = true;
                Err(error)
            }
        }
    }
}
