// The commands of a table by their bytes, and the refusals of commands, by what they depend on.
// Its contracts cite `specs/Refusals.antt`, and the machine's `specs/Load.antt`.
ghost use Rattle.std.specs.Prelude.{◌≡◌, IfOk};
ghost use Rattle.machine.specs.Load.{begin_refusal};
ghost use Rattle.refusals.specs.Numbers.{refused_number};
ghost use Rattle.load_operands.specs.Refusals.{
  CommandFound,
  command_byte,
  command_number,
  in_its_place,
  operands_number,
  part_number,
  port_number,
  span_number,
};

use crate::cursor::signed_of;
use crate::operands::PartOperands;
use machine::model::PARTS;
use machine::part::{Component, Kind, SPANS};
use part_rules::operand::operands_fit;
use part_rules::port::ports_of;
use part_rules::range::{is_positive, magnitude_known, preference_known};
use part_rules::source::is_wired;
use refusals::Refusal;

// The commands of a table, by their bytes.
#[derive(Clone, Copy, Debug, PartialEq, Eq)]
pub enum Command {
    Begin = 0x01,
    Part = 0x02,
    Span = 0x03,
    Wire = 0x04,
    End = 0x05,
}

// The bytes of these, and of a wanted step, which is a command of the score and so none of a table.
pub const BEGIN_BYTE: u8 = Command::Begin as u8;

pub const PART_BYTE: u8 = Command::Part as u8;

pub const SPAN_BYTE: u8 = Command::Span as u8;

pub const WIRE_BYTE: u8 = Command::Wire as u8;

pub const END_BYTE: u8 = Command::End as u8;

pub const WANT_BYTE: u8 = 0x06;

impl TryFrom<u8> for Command {
    // A wanted step, which is out of place in a table, or an unknown command.
    type Error = Refusal;

    ghost try_from_gives = { CommandFound };

    fn try_from(byte: u8) -> Result<Command, Refusal> {
        match byte {
            BEGIN_BYTE => Ok(Command::Begin),
            PART_BYTE => Ok(Command::Part),
            SPAN_BYTE => Ok(Command::Span),
            WIRE_BYTE => Ok(Command::Wire),
            END_BYTE => Ok(Command::End),
            WANT_BYTE => Err(Refusal::OutOfPlace),
            _ => Err(Refusal::UnknownCommand),
        }
    }
}

// The refusal of a Begin with this magnitude.
#[tactic(auto, unfolding(machine::specs::Load::begin_refusal))]
pub fn begin_refusal(e: u8) -> Result<(), Refusal>
    ensures { refused_number result ≡ begin_refusal e }
{
    Refusal::OutOfRange.when(!magnitude_known(e))
}

// The refusal of a Part's operands: its kind or preference is unknown, or an operand is out of its range.
#[tactic(auto, unfolding(crate::specs::Refusals::operands_number))]
fn operands_refusal(o: PartOperands) -> Result<(), Refusal>
    ensures { refused_number result ≡ operands_number o }
{
    let Ok(kind) = Kind::try_from(o.kind) else {
        return Err(Refusal::OutOfRange);
    };
    Refusal::OutOfRange.when(!preference_known(o.preference))?;
    let fit = operands_fit(kind, signed_of(o.a), signed_of(o.b), o.p);
    Refusal::OutOfRange.when(!fit)
}

// The refusal of a Part after so many.
#[tactic(auto, unfolding(crate::specs::Refusals::part_number))]
pub fn part_refusal(count: usize, o: PartOperands) -> Result<(), Refusal>
    ensures { refused_number result ≡ part_number count o }
{
    Refusal::TooMany.when(count >= PARTS)?;
    operands_refusal(o)
}

// The refusal of a Span with the value v after so many, the last of them given.
#[tactic(auto, unfolding(crate::specs::Refusals::span_number))]
pub fn span_refusal(count: usize, last: u32, v: u32) -> Result<(), Refusal>
    ensures { refused_number result ≡ span_number count last v }
{
    Refusal::TooMany.when(count >= SPANS)?;
    Refusal::OutOfRange.when(!is_positive(v))?;
    Refusal::SpanNotRising.when(v <= last)
}

// The refusal of a Wire to a port of this component.
#[tactic(auto, unfolding(crate::specs::Refusals::port_number))]
pub fn port_refusal(c: Component, port: u8) -> Result<(), Refusal>
    ensures { refused_number result ≡ port_number c.kind c.port0 c.port1 port }
{
    let source = if port == 0 { c.port0 } else { c.port1 };
    Refusal::NotThere.when(port >= ports_of(c.kind))?;
    Refusal::AlreadyWired.when(is_wired(source))
}

// Whether a command is where it may: by whether Begin was read, and whether a span may follow.
#[tactic(auto, unfolding(crate::specs::Refusals::in_its_place))]
fn in_place(begun: bool, spannable: bool, command: Command) -> bool
    ensures { result ≡ in_its_place begun spannable (command_byte command) }
{
    match command {
        Command::Begin => !begun,
        Command::Span => begun && spannable,
        Command::Part | Command::Wire | Command::End => begun,
    }
}

// The command with this byte, where it is known and in place.
#[tactic(auto, using(crate::specs::Refusals::command_known))]
pub fn command_in_place(begun: bool, spannable: bool, b: u8) -> Result<Command, Refusal>
    ensures refused { refused_number result ≡ command_number begun spannable b }
    ensures byte { IfOk result (λ command. command_byte command ≡ b) }
{
    let command = Command::try_from(b)?;
    if in_place(begun, spannable, command) {
        Ok(command)
    } else {
        Err(Refusal::OutOfPlace)
    }
}
