//! Laws about the definitions: the contract of each function is a law, and its body is empty.

ghost use Rattle.acpi_c.specs.Laws.{OneAnswer, OneImage, OverlapMeans, PastEndMeans, PiecesMean};

/// The image that pieces give has their bytes at their addresses, and no others. How they are split and in which
/// order they come does not matter.
pub fn pieces_mean()
    ensures bytes { PiecesMean }
    ensures one { OneImage }
{}

/// For refused pieces, the first one is named that passes the last address or shares addresses with those before it,
/// and then the lowest of these addresses.
pub fn refused_pieces_mean()
    ensures past { PastEndMeans }
    ensures overlap { OverlapMeans }
{}

/// Pieces and a text that give one image get the same verdict.
pub fn one_answer()
    ensures { OneAnswer }
{}
