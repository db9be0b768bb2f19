// The run of a net of switches and its promises. The crate has no code to run: each function carries one promise in its contract.
#![tactic(auto)]

ghost use Rattle.run.specs.Promise.{Promise};
ghost use Rattle.run.specs.OnTheWay.{OnTheWay};
ghost use Rattle.run.specs.Live.{Ends, CanEnd, AllLeave};
ghost use Rattle.run.specs.Cases.{CasesHold};
ghost use Rattle.run.specs.Past.{PastIsTold};
ghost use Rattle.run.specs.Rehearsal.{Rehearsal};

// Every packet goes by one plan, the one in force where and when it came in, and no copy of it is left out.
pub fn promise_stands()
    ensures promise { Promise }
{}

// While a change is under way, what switches hold and what is on cables fits the desk's stage.
pub fn on_the_way_stands()
    ensures way { OnTheWay }
{}

// A change that is under way ends, if what is given, sent or put on again and again comes in at some time.
pub fn change_ends()
    ensures ends { Ends }
{}

// At any time a change that is under way can still be ended, with nothing lost.
pub fn change_can_end()
    ensures ends { CanEnd }
{}

// Without losses all that its plan says of a packet leaves at some time, through any number of changes.
pub fn all_leave()
    ensures leave { AllLeave }
{}

// What has been ordered and answered follows from the desk's versions and stage, and a switch has a place for each table that it is to take in.
pub fn past_is_told()
    ensures past { PastIsTold }
{}

// The promise holds over any list of calls to a net, in words of the calls and of what is told of them.
pub fn rehearsal_stands()
    ensures rehearsal { Rehearsal }
{}

// The worked cases hold, row by row.
pub fn cases_stand()
    ensures rows { CasesHold }
{}
