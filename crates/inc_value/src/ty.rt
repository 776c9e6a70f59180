//! Types of values.

/// The types that a node reference may lead to.
#[derive(Clone, Copy, PartialEq, Eq)]
pub enum Base {
    Int,
    Bool,
    Text,
}

/// The type of a value; `Node` is a reference to a node of that base type.
#[derive(Clone, Copy, PartialEq, Eq)]
pub enum Ty {
    Int,
    Bool,
    Text,
    Node(Base),
}

impl Base {
    ghost use Rattle.std.specs.Prelude.{◌≡◌};
    ghost use Rattle.inc_value.specs.Ty.{type_of_base};

    /// The base type as a type.
    pub fn ty(self) -> Ty
        ensures { result ≡ type_of_base self }
    {
        match self {
            Base::Int => Ty::Int,
            Base::Bool => Ty::Bool,
            Base::Text => Ty::Text,
        }
    }
}

impl Ty {
    ghost use Rattle.std.specs.Prelude.{◌↔◌, ◌≡◌, IsTrue};
    ghost use Rattle.inc_value.specs.Ty.{IsBase, base_of};

    /// Whether values of the type are no node references.
    pub fn is_base(self) -> bool
        ensures { IsTrue result ↔ IsBase self }
    {
        !matches!(self, Ty::Node(_))
    }

    /// The base type that the type is; none of node references.
    pub fn base(self) -> Option<Base>
        ensures { result ≡ base_of self }
    {
        match self {
            Ty::Int => Some(Base::Int),
            Ty::Bool => Some(Base::Bool),
            Ty::Text => Some(Base::Text),
            Ty::Node(_) => None,
        }
    }
}
