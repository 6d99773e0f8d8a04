ghost use Rattle.std.specs.Prelude.{ℕ, ◌≡◌, ◌<◌, ◌≤◌, ◌↔◌, length, map, IsTrue, IfOk, OnOk, slice_set};
ghost use Rattle.loop_data.specs.Points.{point_at, without_forms, with_forms, form_in};
ghost use Rattle.loop_data.specs.PooledPoints.{row_without_forms, IsPooled, pooled};

use crate::same_forms::are_same;
use linear_forms::Form;
use std::alloc::{AllocError, Global};
use std::marker::Model;

/// The forms of the locations before a word, by their numbers in a pool.
#[derive(Drop)]
struct Row {
    /// The address of the word.
    at: u64,
    /// The number of the form of each location: of a register by its number, and from 32 on of a cell.
    forms: [u32; 48],
}

/// Points, seen as a list: the forms of the locations before each word. Each form is kept once in a pool, and
/// locations that have the same one share it.
#[derive(Drop)]
pub struct Points {
    /// The forms by number. The first is none.
    pool: Vec<Option<Form>>,
    rows: Vec<Row>,
}

impl Model for Points {
    ghost use Rattle.std.specs.Prelude.{List};
    ghost use Rattle.loop_data.specs.Points.{Point};

    ghost Value = { List Point };

    ghost use Rattle.loop_data.specs.PooledPoints.{points_in, IsPooled};

    ghost view = { λ p. points_in p.pool.items p.rows.items };

    ghost invariant = { λ p. IsPooled p.pool.items p.rows.items };
}

/// A row without forms.
fn row_without_forms(at: u64) -> Row
    ensures { result ≡ row_without_forms at }
{
    Row { at, forms: [0; 48] }
}

/// Rows without forms, one for each address.
fn rows_without_forms(alloc: Global, body: &[u64]) -> Result<Vec<Row>, AllocError>
    ensures { IfOk result (λ v. v.items ≡ map row_without_forms body.now) }
{
    body.iter().map(|at| row_without_forms(*at)).collect(alloc)
}

/// The number of a form in the pool, into which it is put.
fn number_of(pool: &mut Vec<Option<Form>>, form: Option<Form>) -> Result<u32, AllocError>
    requires first { pooled pool.old.items 0 ≡ None }
    requires some { 0 < length pool.old.items }
    ensures kept { (i : ℕ) → i < length pool.old.items → pooled pool.new.items i ≡ pooled pool.old.items i }
    ensures count { length pool.old.items ≤ length pool.new.items }
    ensures within { IfOk result (λ n. n < length pool.new.items) }
    ensures is { IfOk result (λ n. pooled pool.new.items n ≡ form) }
{
    if form.is_none() {
        return Ok(0);
    }
    let number = pool.len();
    if number >= 1 << 32 {
        return Err(AllocError);
    }
    pool.push(form)?;
    Ok(number as u32)
}

impl Points {
    /// Points without forms, one for each address.
    pub fn without_forms(alloc: Global, body: &[u64]) -> Result<Points, AllocError>
        ensures { IfOk result (λ ps. ps ≡ map without_forms body.now) }
    {
        let mut pool = Vec::new(alloc);
        pool.push(None)?;
        let rows = rows_without_forms(alloc, body)?;
        Ok(Points { pool, rows })
    }

    /// How many points there are.
    pub fn len(&self) -> usize
        ensures { result ≡ length self.now }
    {
        self.rows.len()
    }

    /// The address of the word of a point. Each point has 48 locations.
    pub fn at(&self, place: usize) -> u64
        requires { place < length self.now }
        ensures address { result ≡ (point_at self.now place).at }
        ensures count { length (point_at self.now place).forms ≡ 48 }
    {
        self.rows[place].at
    }

    /// The form of a location before the word of a point, if it has one.
    pub fn form(&self, place: usize, location: usize) -> &Option<Form>
        requires place { place < length self.now }
        requires location { location < 48 }
        ensures { result.now ≡ form_in self.now place location }
    {
        let number = self.rows[place].forms[location];
        &self.pool[number as usize]
    }

    /// Whether a location has the same form before the words of two points, or none before both.
    pub fn is_same(&self, place: usize, other: usize, location: usize) -> bool
        requires place { place < length self.now }
        requires other { other < length self.now }
        requires location { location < 48 }
        ensures { IsTrue result ↔ (form_in self.now place location ≡ form_in self.now other location) }
    {
        let number = self.rows[place].forms[location];
        let second = self.rows[other].forms[location];
        number == second || are_same(&self.pool[number as usize], &self.pool[second as usize])
    }

    /// Gives a point the forms of another.
    pub fn copy_forms(&mut self, place: usize, from: usize)
        requires place { place < length self.old }
        requires from { from < length self.old }
        ensures { self.new ≡ with_forms self.old place (point_at self.old from).forms }
    {
        let forms = self.rows[from].forms;
        self.rows[place].forms = forms;
    }

    /// Gives a location this form, if any, before the word of a point.
    pub fn set_form(
        &mut self,
        place: usize,
        location: usize,
        form: Option<Form>,
    ) -> Result<(), AllocError>
        requires place { place < length self.old }
        requires location { location < 48 }
        ensures { OnOk result (self.new
            ≡ with_forms self.old place (slice_set (point_at self.old place).forms location form)) }
    {
        let number = number_of(&mut self.pool, form)?;
        self.rows[place].forms[location] = number;
        Ok(())
    }
}
