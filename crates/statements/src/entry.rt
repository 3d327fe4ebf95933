// What has a line of its own in a period's statement.
// No Display: `write!` tells its bytes only where it answers Ok, and not that it does so where there is room.
ghost use Rattle.std.specs.Prelude.{ℕ, List};
ghost use Rattle.statements.specs.Lines.{Put};

use crate::page::Page;

pub(crate) trait Entry: Copy {
    // Its line: empty where it has none.
    ghost text: { Self → List ℕ };

    // The most bytes that its line takes.
    ghost width: { ℕ };

    fn put(&self, page: &mut Page)
        ensures { Put width page.old (text self.now) page.new };
}
