//! What is asked of an input: no more than the frame has, nor than 65,536 bytes a call.

ghost use Rattle.std.specs.Prelude.{◌<◌};

use super::sample::{Schema, long, sample};
use pb_stream::{read_delimited, write_delimited};
use pb_wire::{DeviceFault, FailurePlan, Input, Limits, MemInput, MemOutput};
use std::alloc::Global;
use std::test::Fail;

/// An input that keeps how many bytes were asked for at most, and whether more were than the frame had left.
#[derive(Drop)]
struct Watched<'a> {
    input: MemInput<'a>,
    frame_left: usize,
    most: usize,
    is_past: bool,
}

impl Input for Watched<'_> {
    ghost left = { λ s. ⟦<MemInput<'static> as Input>⟧.left s.input };

    ghost failures = { λ s. ⟦<MemInput<'static> as Input>⟧.failures s.input };

    ghost is_steady = { λ s. ⟦<MemInput<'static> as Input>⟧.is_steady s.input };

    fn read(&mut self, into: &mut [u8]) -> Result<usize, DeviceFault> {
        self.most = self.most.max(into.len());
        self.is_past = self.is_past || into.len() > self.frame_left;
        let count = self.input.read(into)?;
        self.frame_left = self.frame_left.saturating_sub(count);
        Ok(count)
    }
}

/// Writes a message of `letters` letters after what was written, and returns how many bytes there are then.
fn write_long(
    alloc: Global,
    schema: &Schema,
    letters: usize,
    output: &mut MemOutput,
) -> Result<usize, Fail> {
    write_delimited(&long(alloc, schema, letters)?, output)?;
    Ok(output.bytes().len())
}

/// Whether the first frame of these bytes is read, all of it, and no more is asked for.
fn asks_within(
    alloc: Global,
    schema: &Schema,
    written: &[u8],
    frame_left: usize,
    piece: usize,
) -> bool
    requires { 0 < piece }
{
    let mut input = Watched {
        input: MemInput::new(written, piece, FailurePlan::NEVER),
        frame_left,
        most: 0,
        is_past: false,
    };
    let read = read_delimited(alloc, &schema.pool, schema.kind, &mut input, Limits::FULL);
    matches!(read, Ok(Some(_))) && input.frame_left == 0 && !input.is_past && input.most <= 65_536
}

/// Whether a message of `letters` letters is read within its frame, which another one follows.
fn is_read_alone(alloc: Global, schema: &Schema, letters: usize) -> Result<bool, Fail> {
    let mut output = MemOutput::new(alloc, 1_000_000, FailurePlan::NEVER);
    let first = write_long(alloc, schema, letters, &mut output)?;
    write_long(alloc, schema, 1, &mut output)?;
    let written = output.bytes();
    Ok(
        asks_within(alloc, schema, written, first, 1_000_000)
            && asks_within(alloc, schema, written, first, 7),
    )
}

fn are_read_alone(alloc: Global, schema: &Schema) -> Result<bool, Fail> {
    for letters in [0, 1, 100, 200, 4090, 5000, 20_000, 70_000] {
        if !is_read_alone(alloc, schema, letters)? {
            return Ok(false);
        }
    }
    Ok(true)
}

#[test]
fn asks(rt: HostRuntime) -> Result<(), Fail> {
    let schema = sample(rt.alloc())?;
    assert!(rt; are_read_alone(rt.alloc(), &schema)?);
    Ok(())
}
