// What was loaded, as text on standard output. Its types belong to `machine`, which prints nothing: a type of this
// crate shows each of them.
use load_call::Accepted;
use machine::model::{Model, PARTS};
use machine::part::{Component, Kind, Mark, Part, Side, Source, State};
use machine::signal::Signal;
use refusals::RefusedAt;
use std::fmt;
use std::fmt::Write;

// Standard output. A piece that cannot be written is passed over.
#[derive(Drop)]
struct Output;

impl fmt::Write for Output {
    fn write_str(&mut self, piece: &str) -> fmt::Result {
        io::write_all(1, piece.as_bytes());
        Ok(())
    }
}

// A value, as it is printed.
#[derive(Drop)]
struct Shown<'a, T>(&'a T);

// A signal, a hyphen where it is absent.
impl fmt::Display for Shown<'_, Signal> {
    fn fmt<W: fmt::Write>(&self, f: &mut fmt::Formatter<W>) -> fmt::Result {
        match self.0 {
            Signal::Absent => f.write_str("-"),
            Signal::Value(v) => write!(f, "{v}"),
        }
    }
}

// What a port is wired to, a hyphen where it is nothing.
impl fmt::Display for Shown<'_, Source> {
    fn fmt<W: fmt::Write>(&self, f: &mut fmt::Formatter<W>) -> fmt::Result {
        match self.0 {
            Source::Unwired => f.write_str("-"),
            Source::From(k) => write!(f, "{k}"),
        }
    }
}

// A kind's name.
impl fmt::Display for Shown<'_, Kind> {
    fn fmt<W: fmt::Write>(&self, f: &mut fmt::Formatter<W>) -> fmt::Result {
        f.write_str(match self.0 {
            Kind::Constant => "constant",
            Kind::Gain => "gain",
            Kind::Adder => "adder",
            Kind::Square => "square",
            Kind::Pulse => "pulse",
            Kind::Delay => "delay",
            Kind::Integrator => "integrator",
            Kind::ResetIntegrator => "reset integrator",
            Kind::Detector => "detector",
            Kind::Hold => "hold",
            Kind::Sampler => "sampler",
            Kind::Drive => "drive",
            Kind::Clapper => "clapper",
        })
    }
}

// A side.
impl fmt::Display for Shown<'_, Side> {
    fn fmt<W: fmt::Write>(&self, f: &mut fmt::Formatter<W>) -> fmt::Result {
        f.write_str(match self.0 {
            Side::Unset => "unset",
            Side::Negative => "negative",
            Side::Positive => "positive",
        })
    }
}

// A mark.
impl fmt::Display for Shown<'_, Mark> {
    fn fmt<W: fmt::Write>(&self, f: &mut fmt::Formatter<W>) -> fmt::Result {
        f.write_str(match self.0 {
            Mark::Clear => "none",
            Mark::Rising => "1",
            Mark::Falling => "-1",
        })
    }
}

// What the table fixed of a part.
impl fmt::Display for Shown<'_, Component> {
    fn fmt<W: fmt::Write>(&self, f: &mut fmt::Formatter<W>) -> fmt::Result {
        let c = self.0;
        write!(f, "{}: preference ", Shown(&c.kind))?;
        match c.preference {
            255 => f.write_str("none")?,
            q => write!(f, "{q}")?,
        }
        write!(f, ", a {}, b {}, p {}, spans", c.a, c.b, c.p)?;
        for span in c.spans.iter().take(c.span_count) {
            write!(f, " {span}")?;
        }
        write!(f, ", ports {} {}", Shown(&c.port0), Shown(&c.port1))
    }
}

// What a part keeps.
impl fmt::Display for Shown<'_, State> {
    fn fmt<W: fmt::Write>(&self, f: &mut fmt::Formatter<W>) -> fmt::Result {
        let s = self.0;
        write!(f, "local {}, held {}, speed {}", s.local.0, s.held, s.speed)?;
        let (signal, output) = (Shown(&s.signal), Shown(&s.output));
        write!(f, ", signal {signal}, output {output}")?;
        write!(f, ", side {}, mark {}", Shown(&s.side), Shown(&s.mark))
    }
}

// A part.
impl fmt::Display for Shown<'_, Part> {
    fn fmt<W: fmt::Write>(&self, f: &mut fmt::Formatter<W>) -> fmt::Result {
        let (component, state) = (Shown(&self.0.component), Shown(&self.0.state));
        write!(f, "{component}, ratio {}, {state}", self.0.ratio)
    }
}

// A model, but for its parts.
impl fmt::Display for Shown<'_, Model> {
    fn fmt<W: fmt::Write>(&self, f: &mut fmt::Formatter<W>) -> fmt::Result {
        let m = self.0;
        write!(f, "magnitude {}, order", m.magnitude)?;
        for place in m.order.iter().take(m.count) {
            write!(f, " {place}")?;
        }
        write!(f, ", point {} {}", m.point.t.0, m.point.n)
    }
}

// The number and the position of a refusal, or the position and what was loaded: a line for the model and one for each
// part.
pub(crate) fn print_loaded(loaded: Result<Accepted, RefusedAt>) {
    let mut out = Output;
    match loaded {
        Err(refused) => {
            let number = refused.refusal.number();
            let _ = writeln!(out, "refused {number} at {}", refused.position);
        }
        Ok(accepted) => {
            let m = &accepted.model;
            let _ = writeln!(out, "accepted up to {}: {}", accepted.position, Shown(m));
            // By their numbers: nothing lends a slice of parts, whose outputs would be an array of signals.
            for k in 0..m.count.min(PARTS) {
                let _ = writeln!(out, "  part {k} {}", Shown(&m.parts[k]));
            }
        }
    }
}
