// A queue's ring: entries of one width in a lent part of the tables, from a place on, around its end.
// Promises: `put` adds the entry behind what the ring holds, `take_out` copies the oldest and steps to the next.
// Rests on `rows`. Place and count are the caller's.
#![tactic(auto)]

ghost use Rattle.std.specs.Prelude.{◌≡◌, ◌++◌, ◌∷◌, [], ◌+◌, ◌-◌, ◌*◌, ◌<◌, ◌≤◌, length, drop, get_or};
ghost use Rattle.rows.specs.Splice.{splice};
ghost use Rattle.rings.specs.Ring.{wrap_of, holds};

fn wrap(x: usize, depth: usize) -> usize
    ensures { result ≡ wrap_of depth x }
{
    if x < depth { x } else { x - depth }
}

// Puts an entry of w bytes behind those that the ring holds.
pub fn put(body: &mut [u8], head: usize, count: usize, w: usize, depth: usize, entry: &[u8])
    requires { (head < depth) × (count < depth) × (depth ≤ 255) × (depth * w ≤ length body.old) × (length entry.now ≡ w) }
    ensures body_after { body.new ≡ splice body.old (wrap_of depth (head + count) * w) entry.now }
    ensures body_after_2 { holds w depth head (count + 1) body.new ≡ holds w depth head count body.old ++ (entry.now ∷ []) }
{
    let i = wrap(head + count, depth);
    let at = i * w;
    rows::copy_short(entry, body, at);
}

// Copies the oldest entry to the front of out, and gives the place of the next one.
pub fn take_out(
    body: &[u8],
    head: usize,
    count: usize,
    w: usize,
    depth: usize,
    out: &mut [u8],
) -> usize
    requires { (head < depth) × (0 < count) × (count ≤ depth) × (depth ≤ 255) × (depth * w ≤ length body.now) × (w ≤ length out.old) }
    ensures out_after { out.new ≡ splice out.old 0 (get_or (holds w depth head count body.now) 0 []) }
    ensures upper_bound { (result < depth) × (holds w depth result (count - 1) body.now ≡ drop 1 (holds w depth head count body.now)) × (result ≡ wrap_of depth (head + 1)) }
{
    let from = head * w;
    let to = from + w;
    rows::copy_short(&body[from..to], out, 0);
    wrap(head + 1, depth)
}
