// Lists of which one place changes.
ghost use Rattle.std.specs.Prelude.{◌≡◌};
ghost use Rattle.migration.specs.Places.{without};

use cite_schema::List;

/// The list without the element at a place. It takes no memory.
pub fn without<T: Drop>(place: usize, list: List<T>) -> List<T>
    ensures { result ≡ without place list }
{
    let mut items = list.into_vec();
    if place >= items.len() {
        return List::from_vec(items);
    }
    let _ = items.remove(place);
    List::from_vec(items)
}
