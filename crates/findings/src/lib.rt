//! Findings: the record, when two are the same, fifteen of them by value with a count, and the copies between those and a lent list.
#![tactic(auto)]

ghost use Rattle.std.specs.Prelude.{◌≡◌, [], ◌∷◌, ◌<◌, length, take};
ghost use Rattle.reading.specs.Lent.{laid};
ghost use Rattle.findings.specs.Same.{severity_number, same_finding};
ghost use Rattle.findings.specs.Hold.{blank_finding, blank_items, holding, cat};
ghost use Rattle.findings.specs.Adding.{added};
ghost use Rattle.findings.specs.Lent.{places_of, load_count, loaded_of};

/// At most so many findings has an image: there are sixteen rules, and no decoded image breaks the one on its package.
pub const MOST: usize = 15;

/// How bad a finding is.
#[derive(Clone, Copy, Debug, PartialEq, Eq)]
pub enum Severity {
    /// The image breaks a rule that it must keep.
    Error,
    /// The image is allowed, and is likely not what was meant.
    Warning,
    /// The image is allowed; the reader may want to know.
    Info,
}

impl Severity {
    /// 0 error, 1 warning, 2 info.
    pub fn number(self) -> u8
        ensures { result ≡ severity_number self }
    {
        match self {
            Severity::Error => 0,
            Severity::Warning => 1,
            Severity::Info => 2,
        }
    }
}

/// What a rule found: its code, and the numbers that the code lists.
#[derive(Clone, Copy, Debug, PartialEq, Eq)]
pub struct Finding {
    // Kept: a number and no enum, since `report::write` and `report::in_table` answer for every code, of the table or not.
    pub code: u8,
    pub severity: Severity,
    pub sub: u8,
    pub first: u32,
    pub second: u32,
    pub third: u32,
}

impl Finding {
    /// Whether two findings are the same in every part.
    #[tactic(auto, unfolding(crate::specs::Same::same_finding))]
    pub fn same(self, other: Finding) -> bool
        ensures { result ≡ same_finding self other }
    {
        self == other
    }
}

/// Findings by value: the first `count` places of `items` are in use; the others are blank.
// Kept: `load` promises the length of a list of more than fifteen in `count`, and `report::write_findings` refuses such a count.
#[derive(Clone, Copy, Debug, PartialEq, Eq)]
pub struct Findings {
    pub items: [Finding; MOST],
    pub count: usize,
}

impl Findings {
    // One more behind those that are there.
    // Kept: beside `rules::Gathered::note`, which is of a list by its Model: this is of the plain record, and findings is beneath rules.
    fn add(&mut self, found: Option<Finding>)
        requires { self.old.count < 15 }
        ensures { self.new ≡ added self.old found }
    {
        if let Some(finding) = found {
            self.items[self.count] = finding;
            self.count += 1;
        }
    }
}

/// What stands in a place that is not in use.
pub fn blank() -> Finding
    ensures { result ≡ blank_finding }
{
    Finding {
        code: 0,
        severity: Severity::Error,
        sub: 0,
        first: 0,
        second: 0,
        third: 0,
    }
}

/// Fifteen places, none in use.
pub fn blanks() -> [Finding; MOST]
    ensures { result ≡ blank_items }
{
    [blank(); MOST]
}

/// What three rules answered, in their order.
#[tactic(auto, unfolding(crate::specs::Hold::holding))]
pub fn of_three(a: Option<Finding>, b: Option<Finding>, c: Option<Finding>) -> Findings
    ensures { result ≡ holding (cat (a ∷ b ∷ c ∷ [])) }
{
    let mut found = Findings {
        items: blanks(),
        count: 0,
    };
    found.add(a);
    found.add(b);
    found.add(c);
    found
}

/// How many places of a list of `len` places are written: none where it has fewer than `need`.
#[tactic(auto, unfolding(crate::specs::Lent::places_of, crate::specs::Lent::least))]
pub fn places(len: usize, need: usize, count: usize) -> usize
    ensures { result ≡ places_of len need count }
{
    if len < need {
        0
    } else {
        count.min(len.min(MOST))
    }
}

/// Writes the findings to the front of a lent list, and says how many places it wrote.
#[tactic(auto, unfolding(crate::specs::Lent::places_of, crate::specs::Lent::least))]
pub fn fill(list: &mut [Finding], need: usize, found: Findings) -> usize
    ensures { (result ≡ places_of (length list.old) need found.count) × (list.new ≡ laid (take result found.items) list.old) }
{
    let n = places(list.len(), need, found.count);
    list[..n].copy_from_slice(&found.items[..n]);
    n
}

/// How many of a list of `len` findings are read: none where they are more than fifteen.
#[tactic(auto, unfolding(crate::specs::Lent::load_count))]
pub fn kept(len: usize) -> usize
    ensures { result ≡ load_count len }
{
    if len <= MOST { len } else { 0 }
}

/// A lent list by value, beside its length: where that is above fifteen the list is too long, and none of it is read.
#[tactic(auto, unfolding(crate::specs::Lent::load_count))]
pub fn load(list: &[Finding]) -> Findings
    ensures { result ≡ loaded_of list.now }
{
    let count = list.len();
    let n = kept(count);
    let mut items = blanks();
    items[..n].copy_from_slice(&list[..n]);
    Findings { items, count }
}
