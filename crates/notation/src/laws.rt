// What holds of the notation as a whole.
ghost use Rattle.notation.specs.Writing.{ReadsBack, LeftOut};

// The nodes of every text, written one to a line with all their operands, are read back. An example of operands left out.
pub fn notation_stands()
    ensures back { ReadsBack }
    ensures example { LeftOut }
{}
