// The parts that a condition which is begun still needs.

ghost use Rattle.std.specs.Prelude.{◌≡◌, ◌≤◌, Option, IfSome};
ghost use Rattle.condition.specs.Parse.{condition_operator, value_operator};
ghost use Rattle.bench.specs.Walk.{Small, Room, one_condition, with_part, split_first, after_condition, after_value, after_number, after, fits, onward, lowest, limit};

// A condition, a value, or a variable's number.
#[derive(Clone, Copy)]
pub(crate) enum Part {
    Condition,
    Value,
    Number,
}

// What is still to be written: the parts in order, as digits of base 4 with the first part lowest
// (1 is a condition, 2 a value, 3 a variable's number), and how many there are of each.
// In one number: an array of parts would need its length beside it, and each step would shift it.
// Bounded by each contract, not by the type: behind a byte the bounds are wider until `fits` is asked.
#[derive(Clone, Copy)]
pub(crate) struct Pending {
    pub(crate) order: usize,
    pub(crate) conditions: usize,
    pub(crate) values: usize,
    pub(crate) numbers: usize,
}

// Above the order of any parts that eight bytes can hold.
const ORDERS: usize = 65536;

impl Part {
    // The part begins with a byte from the lowest on and below the limit.
    pub(crate) fn lowest(self) -> u8
        ensures { result ≡ lowest self }
    {
        match self {
            Part::Condition => 0,
            Part::Value => 17,
            Part::Number => 0,
        }
    }

    pub(crate) fn limit(self) -> u8
        ensures { result ≡ limit self }
    {
        match self {
            Part::Condition => 7,
            Part::Value => 23,
            Part::Number => 1,
        }
    }
}

impl Pending {
    pub(crate) fn one_condition() -> Pending
        ensures is { result ≡ one_condition }
        ensures small { Small result }
    {
        Pending {
            order: 1,
            conditions: 1,
            values: 0,
            numbers: 0,
        }
    }

    // A part more, in front of the others.
    fn with(self, part: Part) -> Pending
        requires { Room self }
        ensures { result ≡ with_part part self }
    {
        match part {
            Part::Condition => Pending {
                order: self.order * 4 + 1,
                conditions: self.conditions + 1,
                ..self
            },
            Part::Value => Pending {
                order: self.order * 4 + 2,
                values: self.values + 1,
                ..self
            },
            Part::Number => Pending {
                order: self.order * 4 + 3,
                numbers: self.numbers + 1,
                ..self
            },
        }
    }

    // The first part, and what is pending behind it.
    pub(crate) fn split_first(self) -> Option<(Part, Pending)>
        requires { Small self }
        ensures is { result ≡ split_first self }
        ensures small { IfSome result (λ p. Small p.1) }
    {
        let mut rest = self;
        rest.order = self.order / 4;
        match self.order % 4 {
            1 => {
                rest.conditions = self.conditions.saturating_sub(1);
                Some((Part::Condition, rest))
            }
            2 => {
                rest.values = self.values.saturating_sub(1);
                Some((Part::Value, rest))
            }
            3 => {
                rest.numbers = self.numbers.saturating_sub(1);
                Some((Part::Number, rest))
            }
            _ => None,
        }
    }

    // What is pending behind a condition's first byte, in front of the others.
    #[tactic(auto, unfolding(condition::specs::Parse::condition_operator))]
    fn after_condition(self, b: u8) -> Option<Pending>
        requires { Small self }
        ensures is { result ≡ after_condition (condition_operator b) self }
        ensures room { IfSome result Room }
    {
        match b {
            0 => Some(self),
            1 => Some(self.with(Part::Condition)),
            2 | 3 => Some(self.with(Part::Condition).with(Part::Condition)),
            4 | 5 => Some(self.with(Part::Value).with(Part::Value)),
            6 => Some(self.with(Part::Value).with(Part::Value).with(Part::Value)),
            _ => None,
        }
    }

    // The same of a value: no constant (16), monitor variable (18) or value at entry (19).
    #[tactic(auto, unfolding(condition::specs::Parse::value_operator))]
    fn after_value(self, b: u8) -> Option<Pending>
        requires { Small self }
        ensures is { result ≡ after_value (value_operator b) self }
        ensures room { IfSome result Room }
    {
        match b {
            17 => Some(self.with(Part::Number)),
            20 | 21 => Some(self.with(Part::Value).with(Part::Value)),
            22 => Some(
                self.with(Part::Value)
                    .with(Part::Value)
                    .with(Part::Condition),
            ),
            _ => None,
        }
    }

    // The same of the number of the one variable.
    fn after_number(self, b: u8) -> Option<Pending>
        requires { Small self }
        ensures is { result ≡ after_number b self }
        ensures room { IfSome result Room }
    {
        if b == 0 { Some(self) } else { None }
    }

    // What is pending behind a byte, or that nothing begins so.
    #[tactic(auto, unfolding(crate::specs::Walk::after))]
    fn after(self, b: u8) -> Option<Pending>
        requires { Small self }
        ensures is { result ≡ after self b }
        ensures room { IfSome result Room }
    {
        match self.split_first()? {
            (Part::Condition, rest) => rest.after_condition(b),
            (Part::Value, rest) => rest.after_value(b),
            (Part::Number, rest) => rest.after_number(b),
        }
    }

    // Whether exactly k bytes can hold what is pending: a condition can be any number of bytes longer, a
    // value three or more. The order of what eight bytes can hold is below ORDERS, which bounds the sums.
    #[tactic(auto, unfolding(crate::specs::Walk::fits))]
    pub(crate) fn fits(self, k: usize) -> bool
        requires { Room self }
        ensures { result ≡ fits self k }
    {
        let few = self.conditions + 2 * self.values + self.numbers;
        let longer = (0 < self.conditions) | ((0 < self.values) & (few + 3 <= k));
        (self.order < ORDERS) & ((few <= k) & ((few == k) | longer))
    }

    // What is pending behind a byte, if exactly k bytes can hold it.
    #[tactic(auto, unfolding(crate::specs::Walk::fits))]
    pub(crate) fn onward(self, b: u8, k: usize) -> Option<Pending>
        requires { Small self × (k ≤ 8) }
        ensures is { result ≡ onward self b k }
        ensures small { IfSome result Small }
    {
        let next = self.after(b)?;
        if next.fits(k) { Some(next) } else { None }
    }
}
