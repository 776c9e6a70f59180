//! Laws of the definitions. Each function does nothing: its contract is the law.
ghost use Rattle.formula_elab.specs.Made.{FewMakes, LaidInOrder, LaidTyped, NoneStands, OneLineEach, OneMoreStands, OneNodeEach, RootDeclares};

/// What is to be made for what is declared needs only nodes and functions that are made before it.
pub fn laid_in_order()
    ensures { LaidInOrder }
{}

/// Where what is declared fits the types of names, so do the lines of its bodies.
pub fn laid_typed()
    ensures { LaidTyped }
{}

/// No more is made than there are places.
pub fn few_makes()
    ensures { FewMakes }
{}

/// Each place may come to have one live node.
pub fn one_node_each()
    ensures { OneNodeEach }
{}

/// One line is written for each place of a body.
pub fn one_line_each()
    ensures { OneLineEach }
{}

/// Before anything is made, nothing has to stand.
pub fn none_stands()
    ensures { NoneStands }
{}

/// Where the next is made as it is to be, one more stands.
pub fn one_more_stands()
    ensures { OneMoreStands }
{}

/// Where all of it stands, the root is the node of what is declared.
pub fn root_declares()
    ensures { RootDeclares }
{}
