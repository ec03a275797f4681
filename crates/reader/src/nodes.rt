// The nodes of a text, put in a buffer from its end, and how many there are: none is told where there are more than a table may have.
ghost use Rattle.std.specs.Prelude.{cond};
ghost use Rattle.reader.specs.inner.Nodes.{put_on, insert_on};
ghost use Rattle.reader.specs.inner.Kept.{kept_in, Counted, Stored};

use table::{MOST_NODES, NOTHING};

// A node in front.
pub fn put(nodes: &mut [u16; MOST_NODES], count: Option<usize>, node: u16) -> Option<usize>
    ensures { Stored result nodes.new (put_on node (kept_in count nodes.old)) }
{
    let count = count?;
    let at = (MOST_NODES - 1).checked_sub(count)?;
    nodes[at] = node;
    Some(count + 1)
}

// A node in front, where it is asked for.
pub fn put_if(
    nodes: &mut [u16; MOST_NODES],
    count: Option<usize>,
    asked: bool,
    node: u16,
) -> Option<usize>
    requires { Counted count }
    ensures { Stored result nodes.new (cond asked (put_on node (kept_in count nodes.old)) (kept_in count nodes.old)) }
{
    if asked {
        return put(nodes, count, node);
    }
    count
}

// A node for nothing before the last `behind` nodes, where an else branch was omitted.
pub fn insert_nothing(
    nodes: &mut [u16; MOST_NODES],
    count: Option<usize>,
    behind: usize,
) -> Option<usize>
    ensures { Stored result nodes.new (insert_on behind (kept_in count nodes.old)) }
{
    let count = count?;
    let at = (MOST_NODES - 1).checked_sub(count)?;
    let end = MOST_NODES - behind.min(count);
    nodes.copy_within(at + 1..end, at);
    nodes[end - 1] = table::node_of(NOTHING, 0);
    Some(count + 1)
}
