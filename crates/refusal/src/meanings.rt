// What a refusal's parts mean to the library's interfaces.
ghost use Rattle.refusal.specs.Meanings.{Printed, PassedUp};

// A report is printed as its three numbers and a side in words, and a fault that goes up by `?` becomes the
// refusal of no side, as docs/REFUSALS.md says.
pub fn meaning()
    ensures printed { Printed }
    ensures passed_up { PassedUp }
{}
