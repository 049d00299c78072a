//! What no difference between two definitions means.

ghost use Rattle.std.specs.Prelude.{◌≡◌, ◌&&◌, is_none};
ghost use Rattle.table_types.specs.Rosters.{is_same_name};
ghost use Rattle.table_types.specs.Shapes.{is_shape_of};
ghost use Rattle.table_types.specs.Tables.{Definition};
ghost use Rattle.node_core.specs.Differences.{defined_shape, difference};

/// A peer's table has the shape of a table of this node, so that its rows are learned, exactly if both have the same name and nothing
/// differs.
pub fn what_differs_is_not_learned()
    ensures { (own theirs : Definition) → is_shape_of own theirs ≡ (is_same_name own.name theirs.name && is_none (difference (defined_shape own) (defined_shape theirs))) }
{}
