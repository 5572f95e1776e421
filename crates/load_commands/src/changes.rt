// What each command makes of the progress, and when a Wire is refused. Its contracts cite `specs/Progress.antt`,
// `specs/ComponentMade.antt`, `specs/Spanned.antt` and `specs/Wired.antt`, and the machine's `specs/Load.antt`.
ghost use Rattle.std.specs.Prelude.{ℕ, ◌<◌, ◌≡◌, List, [], get_or, length};
ghost use Rattle.machine.specs.Load.{begun_with, wire_refusal, with_part, with_wire};
ghost use Rattle.machine.specs.Model.{most_parts};
ghost use Rattle.machine.specs.Table.{component_at};
ghost use Rattle.refusals.specs.Numbers.{refused_number};
ghost use Rattle.load_commands.specs.ComponentMade.{component_of, made_component};
ghost use Rattle.load_commands.specs.Progress.{reading_of};
ghost use Rattle.load_commands.specs.Spanned.{row_with, spanned_reading};
ghost use Rattle.load_commands.specs.Wired.{wired_reading};

use crate::progress::Progress;
use load_operands::cursor::signed_of;
use load_operands::operands::{PartOperands, WireOperands};
use load_operands::refusal::port_refusal;
use machine::part::{Component, SPANS, Source};
use part_rules::kind::{is_drive, kind_numbered};
use refusals::Refusal;

// The component of a Part that no span or wire has reached yet.
#[tactic(auto, unfolding(crate::specs::ComponentMade::made_component))]
fn component_of(o: PartOperands) -> Component
    ensures { result ≡ made_component o }
{
    Component {
        kind: kind_numbered(o.kind),
        preference: o.preference,
        a: signed_of(o.a),
        b: signed_of(o.b),
        p: o.p,
        span_count: 0,
        spans: [0; SPANS],
        port0: Source::Unwired,
        port1: Source::Unwired,
    }
}

// A component with a port wired to a source.
#[tactic(auto, unfolding(machine::specs::Load::with_wire))]
fn wired_component(c: Component, port: u8, source: u8) -> Component
    ensures { result ≡ with_wire c port source }
{
    let from = Source::From(u16::from(source));
    if port == 0 {
        Component { port0: from, ..c }
    } else {
        Component { port1: from, ..c }
    }
}

// Each literal lists all fields: `..self` is not covered where a struct has a ghost field.
impl Progress {
    // The progress after a Begin with this magnitude.
    pub(crate) fn with_begin(self, e: u8) -> Progress
        ensures { (rows : List (List ℕ)) → reading_of result rows ≡ begun_with e }
    {
        let parts = self.parts;
        Progress {
            begun: true,
            spannable: false,
            magnitude: e,
            count: 0,
            parts,
        }
    }

    // The progress with one part more.
    pub(crate) fn with_part(self, o: PartOperands) -> Progress
        requires { self.count < most_parts }
        ensures { (rows : List (List ℕ)) →
            reading_of result rows ≡ with_part (reading_of self rows) (component_of o) }
    {
        let made = component_of(o);
        let mut parts = self.parts;
        parts[self.count] = made;
        Progress {
            begun: true,
            spannable: is_drive(made.kind),
            magnitude: self.magnitude,
            count: self.count + 1,
            parts,
        }
    }

    // The progress with one span more counted at part k.
    pub(crate) fn with_span_counted(self, k: usize) -> Progress
        requires read { k < self.count }
        requires room { (component_at self.parts k).span_count < 8 }
        ensures { (rows : List (List ℕ)) (v : ℕ) → k < length rows →
            (component_at self.parts k).span_count < length (get_or rows k []) →
            reading_of result (row_with rows k (component_at self.parts k).span_count v) ≡
            spanned_reading (reading_of self rows) k v }
    {
        let mut parts = self.parts;
        parts[k].span_count += 1;
        Progress {
            begun: true,
            spannable: true,
            magnitude: self.magnitude,
            count: self.count,
            parts,
        }
    }

    // The progress with a port of the part `receiver` wired to a source.
    pub(crate) fn with_wire(self, o: WireOperands) -> Progress
        requires { o.receiver < self.count }
        ensures { (rows : List (List ℕ)) →
            reading_of result rows ≡ wired_reading (reading_of self rows) o.receiver o.port o.source }
    {
        let receiver = usize::from(o.receiver);
        let mut parts = self.parts;
        parts[receiver] = wired_component(parts[receiver], o.port, o.source);
        Progress {
            begun: true,
            spannable: false,
            magnitude: self.magnitude,
            count: self.count,
            parts,
        }
    }

    // The refusal of a Wire after this progress.
    #[tactic(auto, using(crate::proofs::WireJudged::wire_judged))]
    pub(crate) fn wire_refusal(self, o: WireOperands) -> Result<(), Refusal>
        ensures { (rows : List (List ℕ)) →
            refused_number result ≡
            wire_refusal (reading_of self rows).table.parts o.source o.receiver o.port }
    {
        let receiver = usize::from(o.receiver);
        Refusal::NotThere.when(usize::from(o.source) >= self.count)?;
        Refusal::NotThere.when(receiver >= self.count)?;
        port_refusal(self.parts[receiver], o.port)
    }
}
