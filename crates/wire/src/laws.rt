// What reading and writing have to do with each other.
ghost use Rattle.wire.specs.Laws as laws;

pub fn formats_stand()
    ensures kinds { laws.Kinds }
    ensures orders { laws.Orders }
    ensures marks { laws.Marks }
    ensures frames { laws.Frames }
    ensures outside { laws.Outside }
    ensures cabled { laws.Cabled }
    ensures listed { laws.Listed }
{}
