//! The layers of a tower, and the items of the base that its items come from.

ghost use Rattle.std.specs.Prelude.{◌≡◌};
ghost use Rattle.plain_views.specs.Towers.{base_node};
ghost use Rattle.view_tower.specs.Layers.{tower_of, origin_of};
ghost use Rattle.plain_views.specs.Marks.{arc_origin};

/// A layer of a view. Its maps go by the numbers that [`Values`](crate::values::Values) has.
#[derive(Clone, Copy, Debug, PartialEq, Eq)]
pub enum Layer {
    /// Each arc turned.
    Reverse,
    /// The nodes and arcs that pass these bool maps; where there is none, all pass.
    Sub {
        nodes: Option<u32>,
        arcs: Option<u32>,
    },
    /// Each arc both ways.
    Undirect,
    /// The arcs on which a flow may grow, by two int maps of the arcs.
    Residual {
        cap: u32,
        flow: u32,
    },
    /// Each node as an in-node and an out-node, with an arc between them.
    Split,
}

/// The node of the base that a node of the tower comes from.
pub fn base_of(layers: &[Layer], node: u32) -> u32
    ensures { result ≡ base_node (tower_of layers.now) node }
{
    let mut at = layers.len();
    let mut id = node;
    'down: while at > 0 {
        at -= 1;
        match layers[at] {
            Layer::Split => id /= 2,
            _ => {}
        }
    }
    id
}

/// The item of the base that an arc comes from.
#[derive(Clone, Copy, Debug, PartialEq, Eq)]
pub enum Origin {
    /// The arc with this id.
    Arc(u32),
    /// The node with this id, which a layer split.
    Bind(u32),
}

/// The item of the base that an arc of the tower comes from.
pub fn arc_from(layers: &[Layer], arc: u32) -> Origin
    ensures { origin_of result ≡ arc_origin (tower_of layers.now) arc }
{
    let mut at = layers.len();
    let mut id = arc;
    'down: while at > 0 {
        at -= 1;
        match layers[at] {
            Layer::Undirect => id /= 2,
            Layer::Residual { .. } => id /= 2,
            Layer::Split => {
                if id % 2 == 1 {
                    return Origin::Bind(base_of(&layers[..at], id / 2));
                }
                id /= 2;
            }
            _ => {}
        }
    }
    Origin::Arc(id)
}
