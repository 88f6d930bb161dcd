//! Flows (FIRRTL spec, "Flow").

ghost use Rattle.std.specs.Prelude.{◌≡◌};
ghost use Rattle.fir_meaning.specs.Flows.{flow_under};
ghost use Rattle.fir_types.specs.working.Known.{component_flow};
ghost use Rattle.fir_types.specs.working.Seen.{flow_seen};

use fir_base::Direction;
use fir_names::Component;

/// What may drive a part of a component, and what it may drive.
#[derive(Clone, Copy)]
pub enum Flow {
    /// It may drive, and not be driven.
    Source,
    /// It may be driven.
    Sink,
    /// Both.
    Both,
}

impl Flow {
    /// The flow of a component.
    pub fn of(component: Component) -> Flow
        ensures { flow_seen result ≡ component_flow component }
    {
        match component {
            Component::Port(Direction::Output) => Flow::Sink,
            Component::Wire | Component::Register => Flow::Both,
            _ => Flow::Source,
        }
    }

    /// The flow behind a field that is flipped or not.
    pub fn under(self, flip: bool) -> Flow
        ensures { flow_seen result ≡ flow_under flip (flow_seen self) }
    {
        match self {
            Flow::Source if flip => Flow::Sink,
            Flow::Sink if flip => Flow::Source,
            _ => self,
        }
    }
}
