ghost use Rattle.std.specs.Prelude.{◌≡◌, true, [], ◌∷◌};
ghost use Rattle.kinds.specs.Meaning.{greater};
ghost use Rattle.byte_kinds.specs.Kinds.{decimal_byte_array};
ghost use Rattle.byte_vectors.specs.Examples.{Examples};

use byte_kinds::DecimalByteArray;
use kinds::Kind;

// Whether the code puts the decimal 00 80 above 7F: it does so exactly if the definition does.
fn longer_decimal() -> bool
    ensures { result ≡ greater decimal_byte_array (0x00 ∷ 0x80 ∷ []) (0x7F ∷ []) }
{
    DecimalByteArray::compare_greater(&[0x00, 0x80], &[0x7F])
}

// Whether the worked examples stand: all do by computing the definitions, and the first of them by running the code.
pub fn examples_stand() -> bool
    ensures value { result ≡ true }
    ensures examples { Examples }
{
    longer_decimal()
}
