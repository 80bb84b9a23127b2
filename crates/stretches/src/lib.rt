// The stretches of a programme that need an ear, as a label track: a pen puts it line by line while superframes go by.
#![tactic(auto)]

ghost use Rattle.std.specs.Prelude.{◌≡◌, ◌+◌, ◌*◌, ◌<◌, ltb, take, drop};
ghost use Rattle.text.specs.Pens.{Puts};
ghost use Rattle.stretches.specs.Stretches.{rest, counted, fresh, grow, met, opened};
ghost use Rattle.label.specs.Lines.{lines};
ghost use Rattle.stretches.specs.Step.{PutsStep};

use label::Stretch;
use text::Pen;

fn count(c: u64, one: bool) -> u64
    ensures { result ≡ counted c one }
{
    c.saturating_add(u64::from(one))
}

// Pair n is one of a superframe whose number has 32 bits, so that n + 1 has room.
fn grown(s: Stretch, n: u64, kind: u8) -> Stretch
    requires { n < 1099511627776 }
    ensures { result ≡ grow s n kind }
{
    Stretch {
        start: s.start,
        behind: n + 1,
        bad: count(s.bad, kind == 1),
        none: count(s.none, kind == 2),
        lost: count(s.lost, 2 < kind),
    }
}

fn begun(n: u64, kind: u8) -> Stretch
    requires { n < 1099511627776 }
    ensures { result ≡ grow (fresh n) n kind }
{
    let s = Stretch {
        start: n,
        behind: n,
        bad: 0,
        none: 0,
        lost: 0,
    };
    grown(s, n, kind)
}

// So many untroubled pairs in a row end a stretch: 0.1 s.
const REST: u64 = 3200;

// Whether pair n is near enough for a stretch to go on.
fn near(behind: u64, n: u64) -> bool
    ensures { result ≡ ltb n (behind + rest) }
{
    n.saturating_sub(behind) < REST
}

// Pair n behind the stretch that it may still lengthen: the one that is open behind it. The line of a stretch that it shows to have ended is put.
fn meet(pen: &mut Pen<'_>, last: Option<Stretch>, n: u64, kind: u8) -> Option<Stretch>
    requires { n < 1099511627776 }
    ensures last { opened result ≡ take 1 (met (opened last) n kind) }
    ensures text { Puts pen.old pen.new (lines (drop 1 (met (opened last) n kind))) }
{
    if kind == 0 {
        return last;
    }
    if let Some(s) = last {
        if near(s.behind, n) {
            return Some(grown(s, n, kind));
        }
        pen.put_text(s);
    }
    Some(begun(n, kind))
}

// The 64 pairs of superframe k, counted from 0, after those before it, and the stretch that the next pair may still lengthen: the lines of the stretches
// that are known to have ended are put.
pub fn step(pen: &mut Pen<'_>, last: Option<Stretch>, k: u32, kinds: [u8; 64]) -> Option<Stretch>
    ensures { PutsStep pen.old pen.new last (64 * k) kinds result }
{
    let first = 64 * u64::from(k);
    let mut going = last;
    for i in 0..64 {
        going = meet(pen, going, first + i as u64, kinds[i]);
    }
    going
}

// Behind the last pair: the line of the stretch that is still open.
pub fn finish(pen: &mut Pen<'_>, last: Option<Stretch>)
    ensures { Puts pen.old pen.new (lines (opened last)) }
{
    if let Some(open) = last {
        pen.put_text(open);
    }
}
