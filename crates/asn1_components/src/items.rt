//! The rows of an ENUMERATED type's table.
ghost use Rattle.std.specs.Prelude.{◌≡◌, ◌++◌};
ghost use Rattle.std.specs.List.{find};
ghost use Rattle.std.specs.Option.{option_copied};
ghost use Rattle.std.specs.Ordering.{int_eq};
ghost use Rattle.std.specs.Str.{bytes_eq};

/// A row of the table of an ENUMERATED type: a value, its number and its name (X.680's `EnumerationItem`, 20.1).
pub type EnumerationItem<T> = (T, isize, &'static str);

/// The first row of that number in two tables.
pub(crate) fn item_with_number<'a, T>(
    number: isize,
    root: &'a [EnumerationItem<T>],
    additions: &'a [EnumerationItem<T>],
) -> Option<&'a EnumerationItem<T>>
    ensures { option_copied result ≡
        find (λ l. int_eq l.1 number) (root.now ++ additions.now) }
{
    root.iter()
        .chain(additions.iter())
        .find(|row| row.1 == number)
}

/// The first row of that name in two tables.
pub(crate) fn item_with_name<'a, T>(
    name: &str,
    root: &'a [EnumerationItem<T>],
    additions: &'a [EnumerationItem<T>],
) -> Option<&'a EnumerationItem<T>>
    ensures { option_copied result ≡
        find (λ l. bytes_eq l.2.now name.now) (root.now ++ additions.now) }
{
    root.iter()
        .chain(additions.iter())
        .find(|row| row.2 == name)
}
