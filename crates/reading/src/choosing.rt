// Some of the rules of a list.
ghost use Rattle.std.specs.Prelude.{◌≡◌, ◌≤◌, ◌++◌, length, drop};
ghost use Rattle.reading.specs.Choices.{selected};

use rules::Rule;

// Writes those rules whose flags are true at the start of a list, in order, and answers how many there are; the entries past them stay.
// The list is the caller's, since no call may allocate.
pub fn select(rules: &[Rule], flags: &[bool], chosen: &mut [Rule]) -> usize
    requires flags { length rules.now ≤ length flags.now }
    requires room { length rules.now ≤ length chosen.old }
    ensures count { result ≡ length (selected rules.now flags.now) }
    ensures chosen { chosen.new ≡ selected rules.now flags.now ++ drop result chosen.old }
{
    let mut count = 0;
    for (rule, flag) in rules.iter().zip(flags.iter()) {
        if *flag {
            chosen[count] = *rule;
            count += 1;
        }
    }
    count
}
