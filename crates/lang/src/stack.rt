ghost use Rattle.std.specs.Prelude.{◌≤◌, length};

// There is no room for one more.
#[derive(Clone, Copy, PartialEq, Eq, Debug)]
pub struct Full;

// A stack that holds the first `used` cells of lent memory: a gate's memory is fixed, so it is no `Vec`.
#[derive(Drop)]
pub struct Stack<'m, T> {
    cells: &'m mut [T],
    used: usize,
    ghost within: { used ≤ length cells.now },
}

impl<'m, T: Copy> Stack<'m, T> {
    ghost use Rattle.std.specs.Prelude.{◌≡◌, ◌∷◌, [], take, replicate, slice_set};
    ghost use Rattle.std.specs.List.{slice_get};
    ghost use Rattle.lang.specs.Stacks.{held, items, Pushed, Popped, newest, Truncated};

    // An empty stack in the cells, which keep what they hold.
    pub fn over(cells: &'m mut [T]) -> Stack<'m, T>
        ensures { (held result ≡ []) × (items result ≡ []) × (result.cells.now ≡ cells.old) }
    {
        Stack { cells, used: 0 }
    }

    // How many it holds.
    pub fn len(&self) -> usize
        ensures value { result ≡ length (held self.now) }
        ensures within { result ≤ length self.now.cells.now }
        ensures front { take result self.now.cells.now ≡ held self.now }
    {
        self.as_slice().len()
    }

    // How many it can hold.
    pub fn room(&self) -> usize
        ensures { result ≡ length self.now.cells.now }
    {
        self.cells.len()
    }

    // What it holds, the oldest first.
    pub fn as_slice(&self) -> &[T]
        ensures { result.now ≡ held self.now }
    {
        &self.cells[..self.used]
    }

    // One more; `Full`, and nothing changes, where there is no room.
    pub fn push(&mut self, x: T) -> Result<(), Full>
        ensures { Pushed result self.old x self.new }
    {
        let at = self.used;
        if at >= self.cells.len() {
            return Err(Full);
        }
        self.cells[at] = x;
        self.used = at + 1;
        Ok(())
    }

    // Takes the newest away.
    pub fn pop(&mut self) -> Option<T>
        ensures { Popped result self.old self.new }
    {
        let newest = self.top()?;
        self.used -= 1;
        Some(newest)
    }

    // The newest.
    pub fn top(&self) -> Option<T>
        ensures { result ≡ newest (items self.now) }
    {
        self.as_slice().last().copied()
    }

    // The one at an index, counted from the oldest.
    pub fn get(&self, i: usize) -> Option<T>
        ensures { result ≡ slice_get (held self.now) i }
    {
        self.as_slice().get(i).copied()
    }

    // Changes the one at an index; nothing where there is none.
    pub fn change(&mut self, i: usize, x: T)
        ensures held { held self.new ≡ slice_set (held self.old) i x }
        ensures room { length self.new.cells.now ≡ length self.old.cells.now }
    {
        if i < self.used {
            self.cells[i] = x;
        }
    }

    // Keeps the oldest n.
    pub fn truncate(&mut self, n: usize)
        ensures { Truncated n self.old self.new }
    {
        self.used = self.used.min(n);
    }

    // Holds nothing.
    pub fn clear(&mut self)
        ensures { (held self.new ≡ []) × (items self.new ≡ []) × (self.new.cells.now ≡ self.old.cells.now) }
    {
        self.used = 0;
    }

    // Every cell becomes x, and none is held.
    pub fn wipe(&mut self, x: T)
        ensures { (held self.new ≡ []) × (items self.new ≡ []) × (self.new.cells.now ≡ replicate (length self.old.cells.now) x) }
    {
        self.used = 0;
        // no `fill`, which asks of `T` that cloning cannot fail: a `Copy` of any kind does not say that
        for cell in self.cells.iter_mut() {
            *cell = x;
        }
    }
}
