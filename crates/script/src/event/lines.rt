// The printed line of an event.
ghost use Rattle.std.specs.Prelude.{◌≡◌, Some, IfOk, string_bytes};
ghost use Rattle.script.specs.Events as spec;

use super::{Event, Held, Stage};
use packet::Packet;
use std::alloc::{AllocError, Global};
use std::fmt;

// The fields of a packet behind a blank, with commas between them.
#[derive(Clone, Copy, Debug, PartialEq, Eq)]
struct Fields(Packet);

impl fmt::Display for Fields {
    ghost output = { λ fields. Some (spec.packet_text fields.0) };

    fn fmt<W: fmt::Write>(&self, f: &mut fmt::Formatter<W>) -> fmt::Result {
        let Some((first, others)) = self.0.fields.split_first() else {
            return Ok(());
        };
        write!(f, " {first}")?;
        for field in others {
            write!(f, ",{field}")?;
        }
        Ok(())
    }
}

impl fmt::Display for Stage {
    ghost output = { λ stage. Some (spec.stage_line stage) };

    fn fmt<W: fmt::Write>(&self, f: &mut fmt::Formatter<W>) -> fmt::Result {
        match *self {
            Stage::Installing(v) => write!(f, "stage installing {v}"),
            Stage::Stamping(v) => write!(f, "stage stamping {v}"),
            Stage::Flushing(v, r) => write!(f, "stage flushing {v} {r}"),
            Stage::Removing(v) => write!(f, "stage removing {v}"),
            Stage::Idle(v) => write!(f, "stage idle {v}"),
        }
    }
}

// Each version behind a blank.
impl fmt::Display for Held {
    ghost output = { λ held. Some (spec.held_text held) };

    fn fmt<W: fmt::Write>(&self, f: &mut fmt::Formatter<W>) -> fmt::Result {
        match *self {
            Held::None => Ok(()),
            Held::One(v) => write!(f, " {v}"),
            Held::Two(v, w) => write!(f, " {v} {w}"),
        }
    }
}

// The line, without its end.
impl fmt::Display for Event {
    ghost output = { λ event. Some (spec.line_of event) };

    fn fmt<W: fmt::Write>(&self, f: &mut fmt::Formatter<W>) -> fmt::Result {
        match *self {
            Event::Left {
                from,
                first,
                version,
                at,
                last,
            } => {
                let (first, last) = (Fields(first), Fields(last));
                write!(f, "left from {from}{first} version {version} at {at}{last}")
            }
            Event::LostFrame {
                switch,
                port,
                frame,
            } => {
                let (version, hops, fields) = (frame.version, frame.hops, Fields(frame.packet));
                write!(f, "lost {switch} {port} frame {version} {hops}{fields}")
            }
            Event::LostMark { switch, port, mark } => {
                let (version, round) = (mark.version, mark.round);
                write!(f, "lost {switch} {port} mark {version} {round}")
            }
            Event::Stage(stage) => write!(f, "{stage}"),
            Event::Switch {
                number,
                versions,
                stamp,
                floor,
            } => write!(
                f,
                "switch {number} versions{versions} stamp {stamp} floor {floor}"
            ),
            Event::Refused(fault) => write!(f, "refused {}", fault.number().unwrap_or(0)),
            Event::Impossible => f.write_str("impossible"),
        }
    }
}

impl Event {
    // Its line, without the end of the line.
    pub fn line(self, heap: Global) -> Result<String, AllocError>
        ensures made { IfOk result (λ s. string_bytes s ≡ spec.line_of self) }
    {
        format!(in heap; "{self}")
    }
}
