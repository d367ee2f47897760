// The operators of a question's nodes and the relations of its bounds, and the bytes that stand for them.
#![tactic(auto, unfolding(crate::specs::promises::Operators::operator_of, crate::specs::promises::Operators::relation_of))]

ghost use Rattle.std.specs.Prelude.{◌≡◌};
ghost use Rattle.questions.specs.promises.Operators.{operator_of, relation_of};

#[derive(Clone, Copy, PartialEq, Eq)]
pub enum Operator {
    False = 1,
    Prop = 2,
    Not = 3,
    And = 4,
    Do = 5,
    Next = 6,
    Gain = 7,
    Plan = 8,
    // Some plan earns so much on average.
    Earns = 9,
}

// The relations of "gain", "plan" and "earns".
#[derive(Clone, Copy, PartialEq, Eq)]
pub enum Relation {
    Less = 1,
    Equal = 2,
    Greater = 3,
}

// A byte that stands for no operator, or for no relation.
#[derive(Clone, Copy, PartialEq, Eq)]
pub struct Unknown(pub u8);

impl TryFrom<u8> for Operator {
    type Error = Unknown;

    ghost try_from_gives = { λ byte r. r ≡ operator_of byte };

    fn try_from(byte: u8) -> Result<Self, Unknown> {
        match byte {
            1 => Ok(Operator::False),
            2 => Ok(Operator::Prop),
            3 => Ok(Operator::Not),
            4 => Ok(Operator::And),
            5 => Ok(Operator::Do),
            6 => Ok(Operator::Next),
            7 => Ok(Operator::Gain),
            8 => Ok(Operator::Plan),
            9 => Ok(Operator::Earns),
            _ => Err(Unknown(byte)),
        }
    }
}

impl TryFrom<u8> for Relation {
    type Error = Unknown;

    ghost try_from_gives = { λ byte r. r ≡ relation_of byte };

    fn try_from(byte: u8) -> Result<Self, Unknown> {
        match byte {
            1 => Ok(Relation::Less),
            2 => Ok(Relation::Equal),
            3 => Ok(Relation::Greater),
            _ => Err(Unknown(byte)),
        }
    }
}
