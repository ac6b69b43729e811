//! Why a sheet or a call is refused, and where.

ghost use Rattle.std.specs.Prelude.{◌≡◌, Some};
ghost use Rattle.graph.specs.Faults.{fault, number};
ghost use Rattle.graph.specs.FaultTexts.{fault_text, layer_name};

use std::error::Error;
use std::fmt;

/// Why a sheet or a call is refused. Each cause has its number.
#[derive(Clone, Copy, Debug, PartialEq, Eq, Hash)]
pub enum Cause {
    /// The sheet is empty, or its version is unknown.
    Version = 1,
    /// The sheet is too short or too long, or its count is wrong.
    Size = 2,
    /// The sheet is of another price kind.
    Kind = 3,
    /// A record's length is 0 or passes the sheet's end.
    RecordLength = 4,
    /// A record's tag is unknown, or its body is not as laid out.
    RecordBody = 5,
    /// A stage beyond the 64th.
    TooManyStages = 6,
    /// A stage is named that is not there.
    NoSuchStage = 7,
    /// The link or the mark is there already.
    AlreadyThere = 8,
    /// Live stages alone would contain a loop.
    LiveLoop = 9,
    /// The link or the mark to take off is not there.
    NotThere = 10,
    /// Too few prices or case records.
    TablesTooSmall = 11,
    /// The writer's sheet has another number of stages.
    OtherStageCount = 12,
    /// The output is too short.
    OutputTooShort = 13,
}

/// Which layer refuses.
#[derive(Clone, Copy, Debug, PartialEq, Eq, Hash)]
pub enum Layer {
    Frame,
    Record,
    Graph,
    Call,
}

/// Where an edit of a graph is asked for: by a record of a sheet, whose tag byte stands at this place, or by a call.
#[derive(Clone, Copy, Debug, PartialEq, Eq, Hash)]
pub enum Site {
    Record(usize),
    Call,
}

/// A refusal: its cause, and the layer and place that it is reported at.
#[derive(Clone, Copy, Debug, PartialEq, Eq, Hash)]
pub struct Fault {
    pub cause: Cause,
    pub layer: Layer,
    pub place: usize,
}

impl Cause {
    /// The cause's number.
    pub fn number(self) -> u8
        ensures { result ≡ number self }
    {
        self as u8
    }

    /// The fault of an edit that is refused for this cause: the graph layer's at a record's tag byte, or the call
    /// layer's at 0.
    pub fn at(self, site: Site) -> Fault
        ensures { result ≡ fault self site }
    {
        match site {
            Site::Record(place) => Fault::new(self, Layer::Graph, place),
            Site::Call => Fault::new(self, Layer::Call, 0),
        }
    }
}

impl Fault {
    /// The refusal for this cause, reported at this layer and place.
    pub fn new(cause: Cause, layer: Layer, place: usize) -> Fault
        ensures { result ≡ record { cause = cause; layer = layer; place = place } }
    {
        Fault {
            cause,
            layer,
            place,
        }
    }
}

/// The layer's name.
impl fmt::Display for Layer {
    ghost output = { λ layer. Some (layer_name layer) };

    fn fmt<W: fmt::Write>(&self, f: &mut fmt::Formatter<W>) -> fmt::Result {
        f.write_str(match self {
            Layer::Frame => "frame",
            Layer::Record => "record",
            Layer::Graph => "graph",
            Layer::Call => "call",
        })
    }
}

/// `refused`, then the cause's number, the layer and the place.
impl fmt::Display for Fault {
    ghost output = { λ fault. Some (fault_text fault) };

    fn fmt<W: fmt::Write>(&self, f: &mut fmt::Formatter<W>) -> fmt::Result {
        let number = self.cause.number();
        write!(f, "refused {number} {} {}", self.layer, self.place)
    }
}

impl Error for Fault {}
