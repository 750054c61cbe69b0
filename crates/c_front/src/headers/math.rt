// math.h: arithmetic on words.

pub const MATH: &str = "\
#ifndef MATH_H
#define MATH_H

int abs(int n)
{
    if (n < 0)
        return -n;
    return n;
}

int min(int a, int b)
{
    if (a < b)
        return a;
    return b;
}

int max(int a, int b)
{
    if (a > b)
        return a;
    return b;
}

#endif
";
