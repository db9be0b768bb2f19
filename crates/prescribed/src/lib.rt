// The table that is prescribed for a policy, and that it is right. All of it is in specs/ and proofs/.
#![tactic(auto)]

ghost use Rattle.prescribed.specs.Alike as alikes;
ghost use Rattle.prescribed.specs.Fit as fits;
ghost use Rattle.prescribed.specs.Right as rights;

// Packets that meet the same tests are treated alike.
pub fn packets_are_treated_alike()
    ensures alike { alikes.TreatedAlike }
{}

// The table of a policy gives every packet the copies that the policy gives it.
pub fn table_is_right()
    ensures right { rights.AlwaysRight }
{}

// Different outs of a leaf give different copies.
pub fn outs_differ()
    ensures differ { rights.OutsDiffer }
{}

// The product that a policy is measured by is the number of leaves, and bounds the number of rules.
pub fn product_counts()
    ensures counts { fits.ProductCounts }
{}
