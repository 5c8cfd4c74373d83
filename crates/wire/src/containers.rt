// A run of RPL options (RFC 6550, section 6.7), and the DAG Metric Containers in it.
ghost use Rattle.std.specs.Prelude.{◌≡◌, ◌≤◌, length, position, not, eqb, drop};
ghost use Rattle.std.specs.Iterator.{YieldsFirstRef, item_count};
ghost use Rattle.model.specs.Reading.{misframed, no_place};
ghost use Rattle.wire.specs.Front.{ends_at};
ghost use Rattle.wire.specs.Options.{pads, data_front, LeavesOptions};
ghost use Rattle.wire.specs.Frame.{frame_bar, frame_in, frame_place};

use model::Bar;

// The option type of a DAG Metric Container (RFC 6550, section 6.7.4).
const CONTAINER: u8 = 2;

// The most containers of a run.
const MOST: usize = 8;

// The data of each container among the whole options in front of bytes.
#[derive(Clone, Copy)]
pub struct Containers<'a> {
    rest: &'a [u8],
}

impl<'a> Containers<'a> {
    // The containers of a run.
    #[inline(always)]
    pub fn new(run: &'a [u8]) -> Self
        ensures { result.rest.now ≡ run.now }
    {
        Containers { rest: run }
    }

    // Whether nothing is left: what is left where there is no next container is an option that is cut short.
    #[inline(always)]
    pub fn is_done(&self) -> bool
        ensures { result ≡ ends_at self.now.rest.now }
    {
        self.rest.is_empty()
    }
}

// The index of the first byte that is no Pad1.
#[inline(always)]
fn behind_pads(bytes: &[u8]) -> Option<usize>
    ensures { result ≡ position (λ b. not (eqb b 0)) bytes.now }
{
    bytes.iter().position(|byte| *byte != 0)
}

// How many Pad1 are in front.
#[inline(always)]
fn pads(bytes: &[u8]) -> usize
    ensures value { result ≡ pads bytes.now }
    ensures bound { result ≤ length bytes.now }
{
    behind_pads(bytes).unwrap_or(bytes.len())
}

// What stands behind the Pad1 in front. Most options have none before them, and pay for one test.
#[inline(always)]
fn unpadded(bytes: &[u8]) -> &[u8]
    ensures { result.now ≡ drop (pads bytes.now) bytes.now }
{
    match bytes {
        [0, ..] => &bytes[pads(bytes)..],
        _ => bytes,
    }
}

impl<'a> Iterator for Containers<'a> {
    type Item = &'a [u8];

    ghost next_gives = { λ s r t. YieldsFirstRef (λ u. data_front u.rest.now) s r t × LeavesOptions s r t };

    ghost remaining = { item_count (λ s. data_front s.rest.now) };

    #[inline(always)]
    // A loop by hand: what is left behind the container that is found, or behind none, stays in the iterator.
    fn next(&mut self) -> Option<&'a [u8]> {
        loop {
            self.rest = unpadded(self.rest);
            let [kind, size, rest @ ..] = self.rest else {
                return None;
            };
            let size = *size as usize;
            if rest.len() < size {
                return None;
            }
            let (data, behind) = rest.split_at(size);
            self.rest = behind;
            if *kind == CONTAINER {
                return Some(data);
            }
        }
    }
}

// Whether a run is one whole container, as most are; a lone container that is not one is refused by bar 13.
#[inline(always)]
pub(crate) fn is_framed(run: &[u8]) -> bool
    ensures { result ≡ not (misframed run.now) }
{
    match run {
        [kind, size, data @ ..] => (*kind == CONTAINER) & (*size as usize == data.len()),
        _ => false,
    }
}

// Bars 22 and 23, by the options of a run alone; one whole container has neither.
pub(crate) fn check(run: &[u8]) -> Result<(), Bar>
    ensures number { frame_in result ≡ frame_bar run.now }
    ensures place { frame_place result ≡ no_place }
{
    if is_framed(run) {
        return Ok(());
    }
    let mut count: usize = 0;
    let mut containers = Containers::new(run);
    while let Some(_) = containers.next() {
        count += 1;
    }
    if !containers.is_done() {
        return Err(Bar::Option);
    }
    if MOST < count {
        return Err(Bar::Containers);
    }
    Ok(())
}
