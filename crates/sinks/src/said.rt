ghost use Rattle.std.specs.Prelude.{◌≡◌};
ghost use Rattle.sinks.specs.Refusals.{Refusal};

use crate::fault::Layer;

// What a refusal says: its number, the layer that it began in, and a position.
#[derive(Clone, Copy, PartialEq, Eq, Debug)]
pub struct Said {
    // of the list of refusals
    pub number: u8,
    pub layer: Layer,
    pub position: usize,
}

// Why a layer refuses: each layer has an enum of its own, and one table of what its cases say.
pub trait Fault: Copy {
    ghost meaning: { Self → Refusal };

    fn said(self) -> Said
        ensures number { result.number ≡ (meaning self).number }
        ensures layer { result.layer ≡ (meaning self).layer }
        ensures position { result.position ≡ (meaning self).position };

    final fn number(self) -> u8
        ensures { result ≡ (meaning self).number }
    {
        self.said().number
    }

    final fn layer(self) -> Layer
        ensures { result ≡ (meaning self).layer }
    {
        self.said().layer
    }

    final fn position(self) -> usize
        ensures { result ≡ (meaning self).position }
    {
        self.said().position
    }
}
