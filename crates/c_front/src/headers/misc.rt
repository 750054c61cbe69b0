// misc.h: random numbers, blocks of memory and the end of a program.

pub const MISC: &str = "\
#ifndef MISC_H
#define MISC_H

int rand()
{
    return port_in(RNG_CurrentValue);
}

// a seed is 1 to 2147483646; any other is ignored
void srand(int seed)
{
    port_out(RNG_CurrentValue, seed);
}

void memset(int* to, int word, int count)
{
    while (count >= 4)
    {
        to[0] = word;
        to[1] = word;
        to[2] = word;
        to[3] = word;
        to += 4;
        count -= 4;
    }
    while (count > 0)
    {
        *to = word;
        to++;
        count--;
    }
}

// words in ascending order
void memcpy(int* to, int* from, int count)
{
    while (count >= 4)
    {
        to[0] = from[0];
        to[1] = from[1];
        to[2] = from[2];
        to[3] = from[3];
        to += 4;
        from += 4;
        count -= 4;
    }
    while (count > 0)
    {
        *to = *from;
        to++;
        from++;
        count--;
    }
}

// the difference of the first words that differ, else 0
int memcmp(int* a, int* b, int count)
{
    for (int i = 0; i < count; i++)
    {
        if (a[i] != b[i])
            return a[i] - b[i];
    }
    return 0;
}

void exit()
{
    halt();
}

#endif
";
