#![tactic(auto)]

// The numbers of a share's directory, and whether its own bytes are forms lying apart. Inner: no entry point.
ghost use Rattle.std.specs.Prelude.{◌≡◌, ◌+◌, ◌*◌, ◌≤◌, ◌<◌, length};
ghost use Rattle.common.specs.Lists.{from, every};
ghost use Rattle.store_spec.specs.Store.{start_at, length_at, slot_ok, apart, sound};

// Where the form of slot k starts.
pub fn start_of(dir: &[u32], k: usize) -> usize
    requires { (k < 64) × (2 * k < length dir.now) }
    ensures { (result ≡ start_at dir.now k) × (result < 4294967296) }
{
    dir[2 * k] as usize
}

// How long the form of slot k is.
pub fn length_of(dir: &[u32], k: usize) -> usize
    requires { (k < 64) × (2 * k + 1 < length dir.now) }
    ensures { (result ≡ length_at dir.now k) × (result < 4294967296) }
{
    dir[2 * k + 1] as usize
}

// Whether slot k is empty, or its part lies inside the buffer and is a written form.
fn slot_ok(dir: &[u32], buf: &[u8], k: usize) -> bool
    requires { (k < 64) × (2 * k + 1 < length dir.now) }
    ensures { result ≡ slot_ok dir.now buf.now k }
{
    let n = length_of(dir, k);
    if n == 0 {
        return true;
    }
    let a = start_of(dir, k);
    let e = a + n;
    if buf.len() < e {
        return false;
    }
    form_check::is_form(&buf[a..e])
}

// Whether one of two slots is empty, or their parts do not overlap.
fn two_apart(dir: &[u32], k: usize, j: usize) -> bool
    requires { (k < 64) × (j < 64) × (2 * k + 1 < length dir.now) × (2 * j + 1 < length dir.now) }
    ensures { result ≡ apart dir.now k j }
{
    let m = length_of(dir, k);
    if m == 0 {
        return true;
    }
    let n = length_of(dir, j);
    if n == 0 {
        return true;
    }
    let a = start_of(dir, k);
    let b = start_of(dir, j);
    if a + m <= b {
        return true;
    }
    b + n <= a
}

// Whether slot k lies apart from each slot below it.
fn apart_below(dir: &[u32], k: usize) -> bool
    requires { (k < 64) × (2 * k + 1 < length dir.now) }
    ensures { result ≡ every (apart dir.now k) (from 0 k) }
{
    for j in 0..k {
        if !two_apart(dir, k, j) {
            return false;
        }
    }
    true
}

// Whether all slots lie apart.
fn all_apart(dir: &[u32], n: usize) -> bool
    requires { (n ≤ 64) × (length dir.now ≡ 2 * n) }
    ensures { result ≡ every (λ k. every (apart dir.now k) (from 0 k)) (from 0 n) }
{
    for k in 0..n {
        if !apart_below(dir, k) {
            return false;
        }
    }
    true
}

// Whether all slots are empty or hold forms.
fn slots_ok(dir: &[u32], buf: &[u8], n: usize) -> bool
    requires { (n ≤ 64) × (length dir.now ≡ 2 * n) }
    ensures { result ≡ every (slot_ok dir.now buf.now) (from 0 n) }
{
    for k in 0..n {
        if !slot_ok(dir, buf, k) {
            return false;
        }
    }
    true
}

// Whether a share's own bytes are forms lying apart.
pub fn is_sound(dir: &[u32], buf: &[u8], n: usize) -> bool
    requires { (n ≤ 64) × (length dir.now ≡ 2 * n) }
    ensures { result ≡ sound n dir.now buf.now }
{
    if !slots_ok(dir, buf, n) {
        return false;
    }
    all_apart(dir, n)
}
