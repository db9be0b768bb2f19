// Examples of lines and headers.
ghost use Rattle.script.specs.Examples.{Examples};

pub fn examples_stand()
    ensures examples { Examples }
{}
