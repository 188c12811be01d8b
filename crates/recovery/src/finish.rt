// The finish of a recovery: the new stable LSN and active segment, and zeros over what is left of unfinished writing.
ghost use Rattle.std.specs.Prelude.{◌≡◌, ℕ, ◌^◌, ◌/◌, ◌<◌, ◌≤◌, false, not, Bool, IfSome, OnErr, Option, List, ◌++◌, map, length, replicate, count_by};
ghost use Rattle.std.specs.Option.{option_map, option_to_list};
ghost use Rattle.blobs.specs.declared.note.Note.{Note};
ghost use Rattle.device.specs.Meaning.{Alike, wrote, zeroed};
ghost use Rattle.pages.specs.Pages.{Page};
ghost use Rattle.pages.specs.Snapshots.{snap_of};
ghost use Rattle.walks.specs.Finish.{wholes, ended, finish};
ghost use Rattle.walks.specs.Recover.{Budget};
ghost use Rattle.scan.specs.Order.{Segment};
ghost use Rattle.recovery.specs.declared.finish.Rest.{Rest};
ghost use Rattle.recovery.specs.Finishing.{meaning_of, with_rest, EndIs, RestOf, walked_to, Clean, Fitting, Takes, Finished};
ghost use Rattle.recovery.specs.Small.{Small};

use crate::course::Segment;
use codec::Lsn;
use device::Device;
use layout::SegmentSize;
use messages::LogOffset;
use pages::Snapshot;
use refusals::Refusal;

// What the last walk came to: its current LSN, the segment that it holds, and the segments that it never took.
#[derive(Clone, Copy)]
pub(crate) struct Reached<'a> {
    pub(crate) current: Option<Lsn>,
    pub(crate) held: Option<Segment>,
    pub(crate) left: &'a [Segment],
}

// The rest of a segment: where it begins, and how long it is.
#[derive(Clone, Copy)]
struct Rest {
    place: LogOffset,
    len: u64,
}

// Where a log ends, and the rest of its active segment.
#[derive(Clone, Copy)]
struct End {
    stable: Option<Lsn>,
    active: Option<LogOffset>,
    rest: Option<Rest>,
}

impl Reached<'_> {
    // The end of the walk. With no current LSN the snapshot given is given back.
    #[tactic(auto, unfolding(walks::specs::Finish::finish, pages::specs::Snapshots::snap_of))]
    fn end(&self, size: SegmentSize, given: &Snapshot) -> End
        requires current { IfSome self.now.current (λ c. c ≤ 2 ^ 62) }
        requires held { IfSome self.now.held (Small size) }
        ensures rest { IfSome result.rest (RestOf size self.now.held) }
        ensures end { (ps : List Page) → EndIs result (wholes size self.now.left.now) (finish size (snap_of given.now) ps (walked_to self.now)) }
    {
        match self.current {
            Some(current) => end_at(size, current, self.held),
            None => End {
                stable: given.stable_lsn,
                active: given.active_segment,
                rest: None,
            },
        }
    }
}

// The end at a current LSN. A held segment with room behind it stays active. Otherwise the log goes on with the next segment.
#[tactic(auto, unfolding(walks::specs::Finish::ended, walks::specs::Finish::behind))]
fn end_at(size: SegmentSize, current: Lsn, held: Option<Segment>) -> End
    requires small { current ≤ 2 ^ 62 }
    requires held { IfSome held (Small size) }
    ensures rest { IfSome result.rest (RestOf size held) }
    ensures end { (ps : List Page) (zs : List (ℕ × ℕ)) → EndIs result zs (ended size current ps held zs) }
{
    let size = size.bytes();
    let progress = current % size;
    match held.filter(|_| progress + 32 < size) {
        Some(s) => End {
            stable: Some(current),
            active: Some(s.value),
            rest: Some(Rest {
                place: s.value + progress,
                len: size - progress,
            }),
        },
        None => End {
            stable: Some(current.next_multiple_of(size)),
            active: None,
            rest: None,
        },
    }
}

// How many blocks the zeros make loose.
fn needed<D: Device>(device: &D, size: SegmentSize, rest: Option<Rest>, left: &[Segment]) -> u64
    ensures { result ≡ count_by (λ p. not (D.Device.loose device.now (p / size))) (option_to_list (option_map (λ (r : Rest). r.place) rest) ++ map (λ (s : Segment). s.value) left.now) }
{
    let size = size.bytes();
    rest.map(|r| r.place)
        .into_iter()
        .chain(left.iter().map(|s| s.value))
        .filter(|place| !device.is_loose(*place / size))
        .count() as u64
}

// Zeros over a run of bytes.
#[tactic(auto, using(crate::proofs::Zeros::took), unfolding(device::specs::Meaning::wrote))]
fn zero_run<D: Device>(device: &mut D, zeros: &[u8], place: LogOffset, len: u64)
    requires zeros { zeros.now ≡ replicate (length zeros.now) 0 }
    requires long { len ≤ length zeros.now }
    requires fitting { Fitting (D.Device.capacity device.old) (D.Device.block_size device.old) (place, len) }
    requires paid { D.Device.loose device.old (place / D.Device.block_size device.old) ≡ false → 0 < D.Device.spare device.old }
    ensures { let means = meaning_of D.ReadAt.bytes D.Device.capacity D.Device.block_size D.Device.loose D.Device.spare in
        Alike (means device.new) (wrote (means device.old) place (replicate len 0)) }
{
    device.write(&zeros[..len as usize], place).unwrap();
}

// Zeros over the rest of the active segment, and over the segments left.
fn write_zeros<D: Device>(
    device: &mut D,
    size: SegmentSize,
    zeros: &[u8],
    rest: Option<Rest>,
    left: &[Segment],
)
    requires zeros { zeros.now ≡ replicate (length zeros.now) 0 }
    requires long { size ≤ length zeros.now }
    requires block { D.Device.block_size device.old ≡ size }
    requires takes { Takes (meaning_of D.ReadAt.bytes D.Device.capacity D.Device.block_size D.Device.loose D.Device.spare device.old) (with_rest rest (wholes size left.now)) }
    ensures { let means = meaning_of D.ReadAt.bytes D.Device.capacity D.Device.block_size D.Device.loose D.Device.spare in
        Alike (means device.new) (zeroed (means device.old) (with_rest rest (wholes size left.now))) }
{
    if let Some(r) = rest {
        zero_run(device, zeros, r.place, r.len);
    }
    for s in left {
        zero_run(device, zeros, s.value, size.bytes());
    }
}

// Nothing is written before the checks. A refusal leaves the device as it was.
pub(crate) fn finish<D: Device>(
    device: &mut D,
    size: SegmentSize,
    zeros: &[u8],
    given: &Snapshot,
    reached: Reached,
) -> Result<(Option<Lsn>, Option<LogOffset>), Refusal>
    requires zeros { zeros.now ≡ replicate (length zeros.now) 0 }
    requires long { size ≤ length zeros.now }
    requires block { D.Device.block_size device.old ≡ size }
    requires clean { Clean size (D.Device.capacity device.old) reached }
    ensures kept { OnErr result (device.new ≡ device.old) }
    ensures done { let means = meaning_of D.ReadAt.bytes D.Device.capacity D.Device.block_size D.Device.loose D.Device.spare in
        (notes : ℕ → Option Note) (laid : Bool) (budget : Budget) (ps : List Page) →
        Finished size (snap_of given.now) reached.entry (means device.old) (means device.new) result notes laid budget ps }
{
    let end = reached.end(size, given);
    if end.stable.unwrap_or(0) < given.stable_lsn.unwrap_or(0) {
        return Err(Refusal::StableFell);
    }
    if needed(device, size, end.rest, reached.left) > device.spare() {
        return Err(Refusal::NoSpare);
    }
    write_zeros(device, size, zeros, end.rest, reached.left);
    Ok((end.stable, end.active))
}
