// A column of cells over one x: which of the points passed are lowest there.
ghost use Rattle.std.specs.Prelude.{◌≡◌};
ghost use Rattle.line.specs.Column.{column_with};

// The least y of the points passed, which of them has it, and the second least y.
#[derive(Clone, Copy)]
pub struct Column {
    pub least: u64,
    pub owner: usize,
    pub second: u64,
}

impl Column {
    // The column with one more point passed.
    #[tactic(auto, unfolding(crate::specs::Column::column_with, slices::specs::Choices::pick))]
    pub fn with(self, y: u64, owner: usize) -> Column
        ensures { result ≡ column_with self y owner }
    {
        if y < self.least {
            Column {
                least: y,
                owner,
                second: self.least,
            }
        } else if y < self.second {
            Column {
                least: self.least,
                owner: self.owner,
                second: y,
            }
        } else {
            self
        }
    }
}
