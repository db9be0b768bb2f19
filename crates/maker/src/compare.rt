// Whether a table without the wants of one field is another table, by their words.
ghost use Rattle.std.specs.Prelude.{◌≡◌, ◌+◌, ◌<◌, ◌≤◌, length};
ghost use Rattle.maker.specs.Compare as spec;
ghost use Rattle.maker.specs.Pasts.{past_of, next_of};

// What is left of both where the first `count` words are the same.
fn words_past<'a>(count: usize, ys: &'a [u16], ns: &'a [u16]) -> Option<(&'a [u16], &'a [u16])>
    ensures value { past_of result ≡ spec.words_past count ys.now ns.now }
{
    let (front, ys) = ys.split_at_checked(count)?;
    let (same, ns) = ns.split_at_checked(count)?;
    if front != same {
        return None;
    }
    Some((ys, ns))
}

// One want of the first table, left out if its field is f. In the second `v` wants are still to come.
fn want_next(f: u16, g: u16, x: u16, v: u16, ns: &[u16]) -> Option<(u16, &[u16])>
    ensures value { next_of result ≡ spec.want_next f g x v ns.now }
{
    if g == f {
        return Some((v, ns));
    }
    if v == 0 {
        return None;
    }
    let [h, y, rest @ ..] = ns else {
        return None;
    };
    if g != *h || x != *y {
        return None;
    }
    Some((v - 1, rest))
}

// What is left of both behind `count` wants of the first and `v` of the second, if without those of the field f they are the same.
fn wants_past<'a>(
    f: u16,
    count: u16,
    v: u16,
    ys: &'a [u16],
    ns: &'a [u16],
) -> Option<(&'a [u16], &'a [u16])>
    ensures value { past_of result ≡ spec.wants_past f count v ys.now ns.now }
{
    let mut v = v;
    let mut ys = ys;
    let mut ns = ns;
    for _i in 0..count {
        let [g, x, more @ ..] = ys else {
            return None;
        };
        let (less, rest) = want_next(f, *g, *x, v, ns)?;
        v = less;
        ys = more;
        ns = rest;
    }
    if v == 0 { Some((ys, ns)) } else { None }
}

// The same of one out.
fn out_past<'a>(ys: &'a [u16], ns: &'a [u16]) -> Option<(&'a [u16], &'a [u16])>
    ensures value { past_of result ≡ spec.out_past ys.now ns.now }
{
    let count = *ys.first()?;
    words_past(1 + 2 * usize::from(count), ys, ns)
}

// The same of `count` outs.
fn outs_past<'a>(count: u16, ys: &'a [u16], ns: &'a [u16]) -> Option<(&'a [u16], &'a [u16])>
    ensures value { past_of result ≡ spec.outs_past count ys.now ns.now }
{
    let mut ys = ys;
    let mut ns = ns;
    for _i in 0..count {
        let (more, rest) = out_past(ys, ns)?;
        ys = more;
        ns = rest;
    }
    Some((ys, ns))
}

// The same of outs with their number in front.
fn all_outs_past<'a>(ys: &'a [u16], ns: &'a [u16]) -> Option<(&'a [u16], &'a [u16])>
    ensures value { past_of result ≡ spec.all_outs_past ys.now ns.now }
{
    let count = *ys.first()?;
    let (more, rest) = words_past(1, ys, ns)?;
    outs_past(count, more, rest)
}

// The same of one rule.
fn rule_past<'a>(f: u16, ys: &'a [u16], ns: &'a [u16]) -> Option<(&'a [u16], &'a [u16])>
    ensures value { past_of result ≡ spec.rule_past f ys.now ns.now }
{
    let (w, more) = ys.split_first()?;
    let (v, rest) = ns.split_first()?;
    let (outs, others) = wants_past(f, *w, *v, more, rest)?;
    all_outs_past(outs, others)
}

// Whether the table of the words ys, without the wants of the field f, is that of ns.
pub fn same_without(f: u16, ys: &[u16], ns: &[u16]) -> bool
    ensures value { result ≡ spec.same_without f ys.now ns.now }
{
    // No rule is empty, so there are no more of them than words.
    let count = ys.len();
    let mut ys = ys;
    let mut ns = ns;
    for _i in 0..count {
        if ys.is_empty() {
            return ns.is_empty();
        }
        let Some((more, rest)) = rule_past(f, ys, ns) else {
            return false;
        };
        ys = more;
        ns = rest;
    }
    ys.is_empty() && ns.is_empty()
}
