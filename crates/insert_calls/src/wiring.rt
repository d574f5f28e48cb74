// The single builder calls of an insert, part by part. The numbers of the insert's nodes, buffers and spans are worked out from the plan as it was before.
ghost use Rattle.std.specs.Prelude.{◌≡◌, ◌+◌, ◌*◌, ◌≤◌, length, take};
ghost use Rattle.format.specs.Formats.{channels};
ghost use Rattle.insert.specs.Wiring.{patches, identity, fresh, dry_gain, dry_weights, return_calls, patched_calls, switch_calls, out_calls, sum_calls, sent_calls};
ghost use Rattle.insert.specs.Insert.{max_channel};
ghost use Rattle.builder_calls.specs.Lent.{state_of, SameAreas};
ghost use Rattle.insert_calls.specs.Loops.{wired, SendFits, ReturnFits};
ghost use Rattle.insert_calls.specs.Own.{own_node, own_gain, own_send};

use builder_calls::areas::PlanAreas;
use format::Format;
use insert::InsertPoint;
use plan::{Plan, Span, Step};

// The gains of a path that is heard, and of one that is not.
const HEARD: f32 = 1.0;

const NOT_HEARD: f32 = 0.0;

// The word safe of an insert's nodes, 0 or 1, which numbers no kind.
const SAFE: u32 = 0;

// The gain of a path: at bypass the dry one is heard, else the wet one.
fn path_gain(heard: bool) -> f32
    ensures { result ≡ dry_gain heard }
{
    if heard { HEARD } else { NOT_HEARD }
}

// A node of its own, of this number, for a step from `src` to `dst`.
#[derive(Clone, Copy)]
struct OwnNode {
    id: u32,
    ramp: u32,
    number: u32,
    src: Span,
    dst: Span,
}

impl OwnNode {
    // A Gain, into fresh buffers. Requires at most 12 channels.
    fn add_gain(self, gain: f32, areas: &mut PlanAreas<'_>)
        requires { self.dst.len ≤ 12 }
        ensures state { state_of areas.new ≡ wired (state_of areas.old) (own_gain self gain) }
        ensures areas { SameAreas areas.old areas.new }
    {
        let OwnNode {
            id,
            ramp,
            number,
            src,
            dst,
        } = self;
        let values = [gain; Format::MAX_CHANNELS];
        let n = dst.len as usize;
        let record = [
            Step::GAIN_MAP,
            number,
            src.start,
            src.len,
            dst.start,
            dst.len,
        ];
        let _ = areas.node(id, &values[..n], ramp, SAFE);
        let _ = areas.buffers(n);
        let _ = areas.step(&record[..]);
    }

    // A Send of the gain 1.
    fn add_send(self, weights: Span, areas: &mut PlanAreas<'_>)
        ensures state { state_of areas.new ≡ wired (state_of areas.old) (own_send self weights) }
        ensures areas { SameAreas areas.old areas.new }
    {
        let OwnNode {
            id,
            ramp,
            number,
            src,
            dst,
        } = self;
        let values = [1.0];
        let record = [
            Step::SEND_MAP,
            number,
            src.start,
            src.len,
            dst.start,
            dst.len,
            weights.start,
            weights.len,
        ];
        let _ = areas.node(id, &values[..], ramp, SAFE);
        let _ = areas.step(&record[..]);
    }
}

// n channels of an input, from one on, each to a buffer. Requires channels and buffers whose numbers four bytes hold.
fn add_patches(areas: &mut PlanAreas<'_>, input: u32, channel: u32, dst: u32, n: u32)
    requires { (channel + n ≤ max_channel) × (dst + n ≤ max_channel) }
    ensures state { state_of areas.new ≡ wired (state_of areas.old) (patches input channel dst n) }
    ensures areas { SameAreas areas.old areas.new }
{
    // The index is what is stored: no list is walked.
    for k in 0..n {
        let record = [Step::PATCH_MAP, input, channel + k, dst + k];
        let _ = areas.step(&record[..]);
    }
}

// The identity fold of n channels, in the first n * n places. Requires at most 12.
fn identity(n: usize) -> [f32; 144]
    requires { n ≤ 12 }
    ensures size { length result ≡ 144 }
    ensures entries { take (n * n) result ≡ identity n }
{
    let mut entries = [0.0; 144];
    // The index is the row and the column: the places lie n + 1 apart.
    for k in 0..n {
        entries[k * n + k] = 1.0;
    }
    entries
}

// The send gain and the Output. Requires room for the send.
#[tactic(auto, using(format::proofs::Labels::channels_le))]
pub fn add_sent(areas: &mut PlanAreas<'_>, insert: InsertPoint)
    requires { SendFits areas.old.builder.plan (channels insert.format) }
    ensures state { state_of areas.new ≡ wired (state_of areas.old) (sent_calls areas.old.builder.plan insert) }
    ensures areas { SameAreas areas.old areas.new }
{
    let before = areas.builder.plan;
    let send = Span {
        start: before.indices as u32,
        len: Format::channels(insert.format) as u32,
    };
    let node = OwnNode {
        id: insert.ids.send,
        ramp: insert.ramp,
        number: before.nodes as u32,
        src: insert.src,
        dst: send,
    };
    node.add_gain(insert.gain, areas);
    let record = [Step::OUTPUT_MAP, send.start, send.len, insert.slot];
    let _ = areas.step(&record[..]);
}

// An insert with a return, and the plan as it was before, which has room for it.
#[derive(Clone, Copy)]
pub struct Wiring {
    pub before: Plan,
    pub insert: InsertPoint,
    pub ghost return_fits: { ReturnFits before insert },
}

impl Wiring {
    // The k-th run of fresh buffers, one of six.
    #[tactic(auto, using(format::proofs::Labels::channels_le))]
    pub fn fresh(self, k: usize) -> Span
        requires { k ≤ 5 }
        ensures { result ≡ fresh self.before self.insert k }
    {
        let n = Format::channels(self.insert.format);
        Span {
            start: (self.before.indices + k * n) as u32,
            len: n as u32,
        }
    }

    // The k-th node, one of six.
    fn node(self, id: u32, k: u32, src: Span, dst: Span) -> OwnNode
        requires { k ≤ 5 }
        ensures { result ≡ own_node self.before self.insert id k src dst }
    {
        OwnNode {
            id,
            ramp: self.insert.ramp,
            number: self.before.nodes as u32 + k,
            src,
            dst,
        }
    }

    // What follows the Output.
    pub fn add_return(self, areas: &mut PlanAreas<'_>)
        ensures state { state_of areas.new ≡ wired (state_of areas.old) (return_calls self.before self.insert) }
        ensures areas { SameAreas areas.old areas.new }
    {
        self.add_patched(areas);
        self.add_switch(areas);
        self.add_out(areas);
        self.add_sum(areas);
    }

    // The patched channels and the return gain.
    #[tactic(auto, using(format::proofs::Labels::channels_le))]
    fn add_patched(self, areas: &mut PlanAreas<'_>)
        ensures state { state_of areas.new ≡ wired (state_of areas.old) (patched_calls self.before self.insert) }
        ensures areas { SameAreas areas.old areas.new }
    {
        let insert = self.insert;
        let n = Format::channels(insert.format);
        let back = insert.back;
        let input = back.input - 1;
        let raw = self.fresh(1);
        let ret = self.fresh(2);
        let first = (self.before.buffers + n) as u32;
        let _ = areas.buffers(n);
        add_patches(areas, input, back.channel - 1, first, n as u32);
        self.node(insert.ids.ret, 1, raw, ret)
            .add_gain(back.gain, areas);
    }

    // The dry and the wet gain.
    #[tactic(auto, using(format::proofs::Labels::channels_le))]
    fn add_switch(self, areas: &mut PlanAreas<'_>)
        ensures state { state_of areas.new ≡ wired (state_of areas.old) (switch_calls self.before self.insert) }
        ensures areas { SameAreas areas.old areas.new }
    {
        let insert = self.insert;
        let ids = insert.ids;
        let bypass = insert.back.bypass;
        let ret = self.fresh(2);
        let dry = self.fresh(3);
        let wet = self.fresh(4);
        self.node(ids.dry, 2, insert.src, dry)
            .add_gain(path_gain(bypass), areas);
        self.node(ids.wet, 3, ret, wet)
            .add_gain(path_gain(!bypass), areas);
    }

    // The insert's output, from silence, and the identity fold.
    #[tactic(auto, using(format::proofs::Labels::channels_le))]
    fn add_out(self, areas: &mut PlanAreas<'_>)
        ensures state { state_of areas.new ≡ wired (state_of areas.old) (out_calls self.before self.insert) }
        ensures areas { SameAreas areas.old areas.new }
    {
        let n = Format::channels(self.insert.format);
        let out = self.fresh(5);
        let record = [Step::CLEAR_MAP, out.start, out.len];
        let entries = identity(n);
        let _ = areas.buffers(n);
        let _ = areas.step(&record[..]);
        let _ = areas.coefficients(&entries[..n * n]);
    }

    // The weights of the dry Send: none where the source span is longer than the format's channels, so that the plan check finds it.
    #[tactic(auto, using(format::proofs::Labels::channels_le))]
    fn dry_weights(self) -> Span
        ensures { result ≡ dry_weights self.before self.insert }
    {
        let n = Format::channels(self.insert.format);
        let start = self.before.coefficients as u32;
        let all = (n * n) as u32;
        if n < self.insert.src.len as usize {
            return Span { start, len: 0 };
        }
        Span { start, len: all }
    }

    // The two Sends.
    #[tactic(auto, using(format::proofs::Labels::channels_le))]
    fn add_sum(self, areas: &mut PlanAreas<'_>)
        ensures state { state_of areas.new ≡ wired (state_of areas.old) (sum_calls self.before self.insert) }
        ensures areas { SameAreas areas.old areas.new }
    {
        let n = Format::channels(self.insert.format);
        let ids = self.insert.ids;
        let dry = self.fresh(3);
        let wet = self.fresh(4);
        let out = self.fresh(5);
        let weights = Span {
            start: self.before.coefficients as u32,
            len: (n * n) as u32,
        };
        self.node(ids.dryin, 4, dry, out)
            .add_send(self.dry_weights(), areas);
        self.node(ids.wetin, 5, wet, out).add_send(weights, areas);
    }
}
