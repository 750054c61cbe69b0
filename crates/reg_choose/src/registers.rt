// Registers, handed out by a scan over spans in the order of their first places.
ghost use Rattle.std.specs.Prelude.{◌≡◌, ℕ, ◌<◌, length, map, leb, true, Some, IfSome, All};
ghost use Rattle.reg_choose.specs.inner.Scan.{free, taking, scan, AllG, Has};
ghost use Rattle.reg_choose.specs.inner.Handing.{span, kept, flag, freed, freed_at, written, got, give};

use crate::interval::Interval;

fn is_free(tenant: Option<Interval>, place: u64) -> bool
    ensures { result ≡ leb (freed tenant) place }
{
    match tenant {
        Some(s) => s.last < place,
        None => true,
    }
}

/// The register with the highest number that is free at the place.
#[tactic(auto, using(crate::proofs::Tenants::free_turn))]
fn free(tenants: &[Option<Interval>], place: u64) -> Option<u32>
    requires nine { length tenants.now ≡ 9 }
    ensures { result ≡ free (freed_at tenants.now) place 9 }
{
    let mut n = 9;
    while n > 0 {
        n -= 1;
        if is_free(tenants[n as usize], place) {
            return Some(n);
        }
    }
    None
}

/// The span takes the register, where there is one.
fn settle(tenants: &mut [Option<Interval>], s: Interval, register: Option<u32>)
    requires inside { IfSome register (λ r. r < length tenants.old) }
    ensures len { length tenants.new ≡ length tenants.old }
    ensures is { freed_at tenants.new ≡ taking (freed_at tenants.old) (span s) register }
{
    if let Some(r) = register {
        tenants[r as usize] = Some(s);
    }
}

/// One span's turn: it takes a register that is free, or none.
fn hand(tenants: &mut [Option<Interval>], given: &mut [Option<u32>], s: Interval)
    requires nine { length tenants.old ≡ 9 }
    requires inside { s.temp < length given.old }
    ensures len { length tenants.new ≡ 9 }
    ensures given_len { length given.new ≡ length given.old }
    ensures tenants { freed_at tenants.new ≡ taking (freed_at tenants.old) (span s) (free (freed_at tenants.old) s.first 9) }
    ensures given { got given.new ≡ written (got given.old) s.temp (free (freed_at tenants.old) s.first 9) }
{
    let register = free(tenants, s.first);
    given[s.temp] = register;
    settle(tenants, s, register);
}

/// Registers for the spans of what is not put out.
pub(crate) fn hand_out(spans: &[Interval], out: &[bool], given: &mut [Option<u32>])
    requires temps { All (λ s. s.temp < length given.old) spans.now }
    requires sizes { length out.now ≡ length given.old }
    ensures len { length given.new ≡ length given.old }
    ensures is { got given.new ≡ give (got given.old) (λ r. 0) (kept (flag out.now) (map span spans.now)) }
{
    let mut tenants = [None; 9];
    for s in spans {
        if !out[s.temp] {
            hand(&mut tenants, given, *s);
        }
    }
}

/// The register among the first `count` whose tenant ends last.
fn last_to_end(tenants: &[Option<Interval>]) -> usize
    requires nine { length tenants.now ≡ 9 }
    ensures { result < 9 }
{
    let mut best = 0;
    let mut r = 1;
    while r < 9 {
        if ends_after(tenants[r], tenants[best]) {
            best = r;
        }
        r += 1;
    }
    best
}

fn ends_after(a: Option<Interval>, b: Option<Interval>) -> bool {
    match (a, b) {
        (Some(a), Some(b)) => a.last > b.last,
        (Some(_), None) => true,
        (None, _) => false,
    }
}

/// Where a tenth span meets nine, the one of the ten that ends last is put out.
fn crowd(tenants: &mut [Option<Interval>], out: &mut [bool], s: Interval)
    requires nine { length tenants.old ≡ 9 }
    ensures len { length tenants.new ≡ 9 }
    ensures out_len { length out.new ≡ length out.old }
    ensures out { (x : ℕ) → flag out.old x ≡ true → flag out.new x ≡ true }
{
    let r = last_to_end(tenants);
    match tenants[r] {
        Some(t) => {
            if t.last > s.last {
                tenants[r] = Some(s);
                put_out(out, t.temp);
            } else {
                put_out(out, s.temp);
            }
        }
        None => put_out(out, s.temp),
    }
}

fn put_out(out: &mut [bool], x: usize)
    ensures len { length out.new ≡ length out.old }
    ensures is { (y : ℕ) → flag out.old y ≡ true → flag out.new y ≡ true }
{
    if x < out.len() {
        out[x] = true;
    }
}

/// One span's turn: it takes a register that is free, or one of ten is put out.
fn meet(tenants: &mut [Option<Interval>], out: &mut [bool], s: Interval)
    requires nine { length tenants.old ≡ 9 }
    ensures len { length tenants.new ≡ 9 }
    ensures out_len { length out.new ≡ length out.old }
    ensures out { (x : ℕ) → flag out.old x ≡ true → flag out.new x ≡ true }
    ensures spared { (r : ℕ) → free (freed_at tenants.old) s.first 9 ≡ Some r
        → (out.new ≡ out.old) × (freed_at tenants.new ≡ taking (freed_at tenants.old) (span s) (Some r)) }
{
    match free(tenants, s.first) {
        Some(r) => settle(tenants, s, Some(r)),
        None => crowd(tenants, out, s),
    }
}

/// Puts out the longest where more than nine spans meet.
pub(crate) fn put_out_longest(spans: &[Interval], out: &mut [bool])
    ensures len { length out.new ≡ length out.old }
    ensures kept { (x : ℕ) → flag out.old x ≡ true → flag out.new x ≡ true }
    ensures spared { AllG Has (scan (λ r. 0) (map span spans.now)) → out.new ≡ out.old }
{
    let mut tenants = [None; 9];
    for s in spans {
        meet(&mut tenants, out, *s);
    }
}
