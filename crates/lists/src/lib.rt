// Reading and writing a lent slice at any place: past its end stands what the caller says, and nothing is written there.
#![tactic(auto)]

ghost use Rattle.std.specs.Prelude.{◌≡◌, get_or, set};

pub fn at<T: Copy>(s: &[T], i: usize, past: T) -> T
    ensures { result ≡ get_or s.now i past }
{
    s.get(i).copied().unwrap_or(past)
}

pub fn put<T: Copy>(s: &mut [T], i: usize, v: T)
    ensures { s.new ≡ set s.old i v }
{
    if i < s.len() {
        s[i] = v;
    }
}
